// Which choices let a text follow: the tests of the grammar, stage by stage.
#![tactic(auto)]

mod present;

ghost use Rattle.std.specs.Prelude.{◌≡◌, get_or};
ghost use Rattle.smtgrammar.specs.Allowed.{format_of, line_ok, declared_ok, read_ok, kind_ok, number_ok, digit_ok, pattern_ok, width_ok, defined_ok, chance_ok, sort_ok, bits_ok, float_ok, opening_ok, rare_taken, sort_taken, operand_ok, word_ok, first_ok, place_ok, defining_ok, ok_at};
ghost use Rattle.smtchoices.specs.Seen.{seen};

use present::suits;
use smtgrammar::{LIMIT, Line, Place, part, stage};

// The nodes so far, as columns of any lengths: kind, first field and sort by number, and by sort the lowest number that has it.
#[derive(Clone, Copy)]
pub struct Tables<'a> {
    pub kinds: &'a [u8],
    pub firsts: &'a [u64],
    pub sorts: &'a [u16],
    pub lowest: &'a [u16],
}

// What is known in the middle of a text: the nodes so far, what they still oblige to, and the line that is being read.
#[derive(Clone, Copy)]
pub struct State<'a> {
    pub tables: Tables<'a>,
    pub place: Place,
    pub line: Line,
}

// The kind of node i, 0 where there is none.
pub fn kind_at(kinds: &[u8], i: usize) -> usize
    ensures { result ≡ get_or kinds.now i 0 }
{
    kinds.get(i).copied().unwrap_or(0) as usize
}

// The sort of node i, 0 where there is none. One generic function for both would promise what `Into` gives, in its members' words: no plainer.
pub fn sort_at(sorts: &[u16], i: usize) -> usize
    ensures { result ≡ get_or sorts.now i 0 }
{
    sorts.get(i).copied().unwrap_or(0) as usize
}

// The format whose patterns are w bits wide.
pub fn format_of(w: usize) -> usize
    ensures { result ≡ format_of w }
{
    match w {
        32 => 2072,
        64 => 2869,
        _ => 3904,
    }
}

// Kinds, sorts, stages and choices are numbers: the definitions of the grammar compare them, and ok_at takes any.
#[tactic(auto, unfolding(smtgrammar::specs::Allowed::line_ok, smtgrammar::specs::Allowed::kind_ok, smtgrammar::specs::Allowed::number_ok, smtgrammar::specs::Allowed::digit_ok, smtgrammar::specs::Allowed::width_ok, smtgrammar::specs::Allowed::defined_ok, smtgrammar::specs::Allowed::sort_ok, smtgrammar::specs::Allowed::opening_ok, smtgrammar::specs::Allowed::sort_taken, smtgrammar::specs::Allowed::word_ok, smtgrammar::specs::Allowed::first_ok, smtgrammar::specs::Allowed::place_ok, smtgrammar::specs::Allowed::ok_at))]
impl State<'_> {
    // The part that a line is of.
    fn line_ok(&self, v: usize) -> bool
        ensures { result ≡ line_ok (seen self.now.tables) self.now.place self.now.line v }
    {
        let p = &self.place;
        match v {
            part::DECLARES => p.part == part::DECLARES && p.top < LIMIT,
            part::DEFINES => p.part <= part::DEFINES && p.gap < LIMIT,
            _ => p.owed == LIMIT && p.due < LIMIT,
        }
    }

    // A declared number is over those before it.
    fn declared_ok(&self, n: usize) -> bool
        ensures { result ≡ declared_ok (seen self.now.tables) self.now.place self.now.line n }
    {
        self.place.top <= n && n < LIMIT
    }

    // Node m can become a float that an FpToIeeeBv reads.
    fn read_ok(&self, m: usize) -> bool
        ensures { result ≡ read_ok (seen self.now.tables) self.now.place self.now.line m }
    {
        self.place.gap < m || self.tables.source(3904, m)
    }

    // Kinds 1 to 5, and an FpToIeeeBv of some number.
    fn kind_ok(&self, k: usize) -> bool
        ensures { result ≡ kind_ok (seen self.now.tables) self.now.place self.now.line k }
    {
        let p = &self.place;
        match k {
            1..=5 => true,
            26 => {
                let node = self.line.node;
                p.gap < node && (p.next < node || self.tables.source(3904, p.gap))
            }
            _ => false,
        }
    }

    // fsw has the number 0, a flag 0 to 2, an FpToIeeeBv that of its operand.
    fn number_ok(&self, a: usize) -> bool
        ensures { result ≡ number_ok (seen self.now.tables) self.now.place self.now.line a }
    {
        match self.line.kind {
            4 => a == 0,
            5 => a <= 2,
            _ => a < self.line.node && kind_at(self.tables.kinds, a) == 0 && self.read_ok(a),
        }
    }

    // A digit of a number below 2^64 without leading zeros, or 10, its end.
    fn digit_ok(&self, d: usize) -> bool
        ensures { result ≡ digit_ok (seen self.now.tables) self.now.place self.now.line d }
    {
        let l = &self.line;
        if d == 10 {
            l.left == 1
        } else {
            (l.left == 0 || l.a != 0) && l.a <= (u64::MAX as usize - d) / 10
        }
    }

    // The width of an FpToIeeeBv.
    fn pattern_ok(&self, w: usize) -> bool
        ensures { result ≡ pattern_ok (seen self.now.tables) self.now.place self.now.line w }
    {
        let f = format_of(w);
        let a = self.line.a;
        let s = sort_at(self.tables.sorts, a);
        let fits = if s == 0 {
            self.place.gap < a || self.tables.source(f, a)
        } else {
            s == f
        };
        fits && (w == 32 || w == 64 || w == 79)
    }

    // The width of a declared node.
    fn width_ok(&self, w: usize) -> bool
        ensures { result ≡ width_ok (seen self.now.tables) self.now.place self.now.line w }
    {
        match self.line.kind {
            1 => w == 79 || w == 16,
            0..=3 => sorts::is_stored(w as u64),
            4 => w == 16,
            5 => w == 1,
            _ => self.pattern_ok(w),
        }
    }

    // A defined number is over those before it, and passes over none that is obliged.
    fn defined_ok(&self, n: usize) -> bool
        ensures { result ≡ defined_ok (seen self.now.tables) self.now.place self.now.line n }
    {
        let p = &self.place;
        let open = p.gap <= n && n < LIMIT && kind_at(self.tables.kinds, n) == 0;
        open && (n < p.owed || n == p.owed && self.tables.source(sort_at(self.tables.sorts, n), n))
    }

    // The number that is obliged next can still become what it has to.
    fn chance_ok(&self, s: usize) -> bool
        ensures { result ≡ chance_ok (seen self.now.tables) self.now.place self.now.line s }
    {
        let p = &self.place;
        let f = sort_at(self.tables.sorts, p.owed);
        p.owed == LIMIT || self.tables.source(f, p.owed) || self.line.after < p.owed || suits(f, s)
    }

    // The sort of a defined node.
    fn sort_ok(&self, s: usize) -> bool
        ensures { result ≡ sort_ok (seen self.now.tables) self.now.place self.now.line s }
    {
        let node = self.line.node;
        match sort_at(self.tables.sorts, node) {
            0 => {
                let float = sorts::is_float(s as u64) && self.tables.source(s, node);
                (sorts::is_bits(s as u64) || float) && self.chance_ok(s)
            }
            f => s == f,
        }
    }

    // What opens a term of s bits.
    fn bits_ok(&self, k: usize, s: usize, n: usize) -> bool
        ensures { result ≡ bits_ok (seen self.now.tables) self.now.place self.now.line k s n }
    {
        let t = &self.tables;
        match k {
            6 => true,
            7 | 8 => t.below(s, n),
            9 => t.below(1, n) && t.below(s, n) || s == 1 && t.some_from(1, n),
            10..=12 => s == 1 && t.below(1, n),
            14 => t.some_from(s, n),
            15 => t.joins(s, n),
            20..=22 => s == 1 && t.some_float(n),
            27 => sorts::is_word(s as u64) && t.some_float(n),
            _ => false,
        }
    }

    // What opens a term of a float of format s.
    fn float_ok(&self, k: usize, s: usize, n: usize) -> bool
        ensures { result ≡ float_ok (seen self.now.tables) self.now.place self.now.line k s n }
    {
        match k {
            16..=19 | 23 | 24 => self.tables.below(s, n),
            25 => self.tables.source(s, n),
            _ => false,
        }
    }

    // What opens a term of the line's sort.
    fn opening_ok(&self, k: usize) -> bool
        ensures { result ≡ opening_ok (seen self.now.tables) self.now.place self.now.line k }
    {
        if sorts::is_bits(self.line.sort as u64) {
            self.bits_ok(k, self.line.sort, self.line.node)
        } else {
            self.float_ok(k, self.line.sort, self.line.node)
        }
    }

    // A first operand of sort s is taken.
    fn first_taken(&self, s: usize) -> bool
        ensures { result ≡ sort_taken (seen self.now.tables) self.now.place self.now.line 0 s }
    {
        let l = &self.line;
        match l.kind {
            7 | 8 | 16..=19 | 23 | 24 => s == l.sort,
            9 => l.sort == 1 && sorts::is_bits(s as u64),
            10..=13 => s == 1,
            _ => self.rare_taken(s),
        }
    }

    // .. by an Extract, a Concat, or a kind that takes floats or gives one.
    fn rare_taken(&self, s: usize) -> bool
        ensures { result ≡ rare_taken (seen self.now.tables) self.now.place self.now.line s }
    {
        let l = &self.line;
        match l.kind {
            14 => sorts::is_bits(s as u64) && l.r < s,
            15 => sorts::is_bits(s as u64) && s < l.sort && self.tables.below(l.sort - s, l.node),
            20..=22 | 27 => sorts::is_float(s as u64),
            25 => s == sorts::pattern_width(l.sort as u64) as usize,
            _ => sorts::is_float(s as u64) || l.sort == 3904 && sorts::is_word(s as u64),
        }
    }

    // An operand j of sort s is taken.
    fn sort_taken(&self, j: usize, s: usize) -> bool
        ensures { result ≡ sort_taken (seen self.now.tables) self.now.place self.now.line j s }
    {
        let l = &self.line;
        let first = sort_at(self.tables.sorts, l.a);
        match (j, l.kind) {
            (0, _) => self.first_taken(s),
            (1, 9 | 20 | 21) => s == first,
            (1, 10 | 11) => s == 1,
            (1, 15) => s == l.sort.saturating_sub(first),
            _ => s == l.sort,
        }
    }

    // Node i may be operand j: it is there, below, and has a sort that is taken.
    fn operand_ok(&self, j: usize, i: usize) -> bool
        ensures { result ≡ operand_ok (seen self.now.tables) self.now.place self.now.line j i }
    {
        i < self.line.node
            && kind_at(self.tables.kinds, i) != 0
            && self.sort_taken(j, sort_at(self.tables.sorts, i))
    }

    // The word `#b1` (0), RNE (1) or RTZ (2) in the place of a first operand.
    fn word_ok(&self, v: usize) -> bool
        ensures { result ≡ word_ok (seen self.now.tables) self.now.place self.now.line v }
    {
        let l = &self.line;
        let t = &self.tables;
        match l.kind {
            9 => v == 0 && t.below(1, l.node) && t.below(l.sort, l.node),
            25 => {
                let word = l.sort == 3904 && t.some_word(l.node);
                (v == 1 || v == 2) && (t.some_float(l.node) || word)
            }
            _ => v == 1 || v == 2,
        }
    }

    // A first operand, or from 65,536 on a word.
    fn first_ok(&self, v: usize) -> bool
        ensures { result ≡ first_ok (seen self.now.tables) self.now.place self.now.line v }
    {
        if v < 65536 {
            (self.line.kind == 9 || self.line.kind == 25) && self.operand_ok(0, v)
        } else {
            self.word_ok(v - 65536)
        }
    }

    // The high place of an Extract of that many bits.
    fn place_ok(&self, hi: usize) -> bool
        ensures { result ≡ place_ok (seen self.now.tables) self.now.place self.now.line hi }
    {
        hi < 80 && self.line.sort <= hi + 1 && self.tables.some_from(hi + 1, self.line.node)
    }

    // The choices of a definition's stages.
    fn defining_ok(&self, v: usize) -> bool
        ensures { result ≡ defining_ok (seen self.now.tables) self.now.place self.now.line v }
    {
        match self.line.stage {
            stage::DEFINED => self.defined_ok(v),
            stage::SORT => self.sort_ok(v),
            stage::OPENING => self.opening_ok(v),
            stage::FIRST => self.first_ok(v),
            stage::OPERAND_0 => self.operand_ok(0, v),
            stage::OPERAND_1 => self.operand_ok(1, v),
            stage::OPERAND_2 => self.operand_ok(2, v),
            stage::PLACES => self.place_ok(v),
            _ => true,
        }
    }
}

// Whether the choice v lets a text follow, at the line's stage.
#[tactic(auto, unfolding(smtgrammar::specs::Allowed::line_ok, smtgrammar::specs::Allowed::kind_ok, smtgrammar::specs::Allowed::number_ok, smtgrammar::specs::Allowed::digit_ok, smtgrammar::specs::Allowed::width_ok, smtgrammar::specs::Allowed::defined_ok, smtgrammar::specs::Allowed::sort_ok, smtgrammar::specs::Allowed::opening_ok, smtgrammar::specs::Allowed::sort_taken, smtgrammar::specs::Allowed::word_ok, smtgrammar::specs::Allowed::first_ok, smtgrammar::specs::Allowed::place_ok, smtgrammar::specs::Allowed::ok_at))]
pub fn ok_at(s: &State, v: usize) -> bool
    ensures { result ≡ ok_at (seen s.now.tables) s.now.place s.now.line v }
{
    match s.line.stage {
        stage::LINE => s.line_ok(v),
        stage::DECLARED => s.declared_ok(v),
        stage::KIND => s.kind_ok(v),
        stage::NUMBER => s.number_ok(v),
        stage::DIGIT => s.digit_ok(v),
        stage::WIDTH => s.width_ok(v),
        _ => s.defining_ok(v),
    }
}
