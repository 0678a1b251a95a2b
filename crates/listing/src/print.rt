// The listing's text.
ghost use Rattle.std.specs.Prelude.{◌≡◌, [], ◌∷◌, get_or, take, length};
ghost use Rattle.listing.specs.Text.{numbers, line, rows};
ghost use Rattle.listing.specs.Listing.{state_line, refusal_line, text_of};

use crate::{Refused, Stop};
use lists::State;
use writing::{Sink, Text};

// Where a run stopped, and its lists.
#[derive(Clone, Copy)]
pub(crate) struct Listing<'a> {
    pub(crate) nodes: &'a [u64],
    pub(crate) statements: &'a [u64],
    pub(crate) run: &'a Stop,
}

impl<'a> Text for Listing<'a> {
    ghost text = { λ l. text_of l.nodes.now l.statements.now l.run.now };

    fn write<S: Sink>(&self, out: &mut S) {
        let state = &self.run.state;
        rows(out, b'n', self.nodes, state.nodes);
        rows(out, b's', self.statements, state.statements);
        state_line(out, state);
        refusal_line(out, self.run.refused);
    }
}

// A blank and a number.
fn number<S: Sink>(out: &mut S, v: u64)
    ensures { S.took (numbers (v ∷ [])) out.old out.new }
{
    out.put(b' ');
    out.decimal(v);
}

// A blank before each number.
fn numbers<S: Sink>(out: &mut S, values: &[u64])
    ensures { S.took (numbers values.now) out.old out.new }
{
    for v in values {
        number(out, *v);
    }
}

// A letter, numbers, and the line's end.
fn line<S: Sink>(out: &mut S, letter: u8, values: &[u64])
    ensures { S.took (line letter values.now) out.old out.new }
{
    out.put(letter);
    numbers(out, values);
    out.put(b'\n');
}

// One line for each of the first rows of a list; past its end all words are 0.
fn rows<S: Sink>(out: &mut S, letter: u8, words: &[u64], count: u32)
    ensures { S.took (rows letter words.now count) out.old out.new }
{
    let word = |j: usize| -> u64
        ensures { result ≡ get_or words.entry.now j 0 }
    { words.get(j).copied().unwrap_or(0) };
    for i in 0..count as usize {
        let j = 4 * i;
        line(
            out,
            letter,
            &[i as u64, word(j), word(j + 1), word(j + 2), word(j + 3)],
        );
    }
}

// A blank before each of the first places from the top.
fn places<S: Sink>(out: &mut S, slots: &[u32; 8], depth: u32)
    ensures wrote { S.took (numbers (take depth slots.now)) out.old out.new }
    ensures eight { length slots.now ≡ 8 }
{
    for slot in &slots[..slots.len().min(depth as usize)] {
        number(out, *slot as u64);
    }
}

// Depth, inputs, temporaries, and the used places.
fn state_line<S: Sink>(out: &mut S, s: &State)
    ensures { S.took (state_line s.now) out.old out.new }
{
    out.put(b'd');
    numbers(
        out,
        &[s.depth as u64, s.inputs as u64, s.temporaries as u64],
    );
    places(out, &s.slots, s.depth);
    out.put(b'\n');
}

// A refusal's number and place, if there is one.
fn refusal_line<S: Sink>(out: &mut S, refused: Option<Refused>)
    ensures { S.took (refusal_line refused) out.old out.new }
{
    if let Some(r) = refused {
        line(out, b'r', &[r.number as u64, r.place as u64]);
    }
}
