// The state of a lift as 13 words: eight slots, depth, nodes, statements, inputs, temporaries.
ghost use Rattle.std.specs.Prelude.{◌≡◌, ◌≤◌, length, take};
ghost use Rattle.texts.specs.Bytes.{all};
ghost use Rattle.export.specs.Lifts.{small_is, low32, state_in, state_words};

use lists::State;

// Whether each of the 13 words is below 2 to the 32. A slice of 13 or more and no array, here and below: the state is lent for writing, and what lies behind its 13 words stays.
pub(crate) fn small(w: &[u64]) -> bool
    requires { 13 ≤ length w.now }
    ensures { result ≡ all small_is (take 13 w.now) }
{
    w[..13].iter().all(|w| *w < 4294967296)
}

// A word as a number of 32 bits, as low32 takes any: a word that is over was refused before.
fn low(w: u64) -> u32
    ensures { result ≡ low32 w }
{
    (w % 4294967296) as u32
}

// The state that stands in 13 words.
pub(crate) fn read(w: &[u64]) -> State
    requires { 13 ≤ length w.now }
    ensures { result ≡ state_in w.now }
{
    State {
        slots: [
            low(w[0]),
            low(w[1]),
            low(w[2]),
            low(w[3]),
            low(w[4]),
            low(w[5]),
            low(w[6]),
            low(w[7]),
        ],
        depth: low(w[8]),
        nodes: low(w[9]),
        statements: low(w[10]),
        inputs: low(w[11]),
        temporaries: low(w[12]),
    }
}

// The 13 words of a state.
pub(crate) fn words(s: State) -> [u64; 13]
    ensures { result ≡ state_words s }
{
    let a = s.slots;
    [
        a[0] as u64,
        a[1] as u64,
        a[2] as u64,
        a[3] as u64,
        a[4] as u64,
        a[5] as u64,
        a[6] as u64,
        a[7] as u64,
        s.depth as u64,
        s.nodes as u64,
        s.statements as u64,
        s.inputs as u64,
        s.temporaries as u64,
    ]
}
