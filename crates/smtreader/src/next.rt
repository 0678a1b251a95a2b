// What a choice leads to: the next stage of the line, or its end, which adds to the tables.
ghost use Rattle.std.specs.Prelude.{◌≡◌, ℕ, cond, ◌+◌, ◌*◌, ◌^◌, ◌/◌, ◌%◌, ◌-◌, ◌≤◌, ◌<◌, ltb};
ghost use Rattle.smtgrammar.specs.State as grammar;
ghost use Rattle.smtgrammar.specs.Next.{declared, defined, asserted, second_field, third_field, kind_of, termed, operand₀, operand₁, word, opened, digit, begun, numeral, next_at};
ghost use Rattle.smttokens.specs.Taken.{shown};
ghost use Rattle.smtreader.specs.Inside.{tables_of, state_of, Bounded, Ends, Terms, Declares, Digits, Fits};

use crate::columns::Columns;
use smtchoices::{State, Tables, format_of, sort_at};
use smtgrammar::{LIMIT, Line, Place, part, stage};

// The state in the middle of a text.
#[derive(Drop)]
pub(crate) struct Reader<'a> {
    pub(crate) columns: Columns<'a>,
    pub(crate) place: Place,
    pub(crate) line: Line,
}

// Kinds, stages and choices are numbers, as in smtchoices.
#[tactic(auto, unfolding(smtgrammar::specs::Next::declared, smtgrammar::specs::Next::defined, smtgrammar::specs::Next::asserted, smtgrammar::specs::Next::termed, smtgrammar::specs::Next::word, smtgrammar::specs::Next::opened, smtgrammar::specs::Next::digit, smtgrammar::specs::Next::begun, smtgrammar::specs::Next::numeral, smtgrammar::specs::Next::next_at))]
impl Reader<'_> {
    // What the next choice is judged by.
    pub(crate) fn state(&self) -> State<'_>
        ensures { shown result self.now.columns.seconds.now self.now.columns.thirds.now ≡ state_of self.now }
    {
        let c = &self.columns;
        State {
            tables: Tables {
                kinds: c.kinds,
                firsts: c.firsts,
                sorts: c.sorts,
                lowest: c.lowest,
            },
            place: self.place,
            line: self.line,
        }
    }

    // A line begins.
    fn begun(&mut self, v: usize)
        ensures { state_of self.new ≡ begun (tables_of self.old.columns) self.old.place self.old.line v }
    {
        self.place.part = v;
        let stage = match v {
            part::DECLARES => stage::DECLARED,
            part::DEFINES => stage::DEFINED,
            _ => stage::ASSERTED,
        };
        self.line = Line {
            stage,
            ..Line::NONE
        };
    }

    // A decimal digit of a number, or 10, its end.
    fn numeral(&mut self, d: usize)
        requires { (d ≡ 10 → ⊥) → 10 * self.old.line.a + d < 2 ^ 64 }
        ensures { state_of self.new ≡ numeral (tables_of self.old.columns) self.old.place self.old.line d }
    {
        let Line { node, kind, a, .. } = self.line;
        self.line = if d == 10 {
            Line {
                stage: stage::WIDTH,
                node,
                kind,
                a,
                ..Line::NONE
            }
        } else {
            Line {
                stage: stage::DIGIT,
                node,
                kind,
                a: 10 * a + d,
                left: 1,
                ..Line::NONE
            }
        };
    }

    // A declaration of w bits ends.
    fn declared(&mut self, w: usize)
        requires { Declares (tables_of self.old.columns) self.old.place self.old.line w }
        ensures { state_of self.new ≡ declared (tables_of self.old.columns) self.old.place self.old.line w }
    {
        let p = self.place;
        let l = self.line;
        if l.kind == 26 {
            self.columns.sorts[l.a] = format_of(w) as u16;
        }
        let b = if l.kind <= 3 { w } else { 0 };
        self.columns.entered(l.node, l.kind, l.a, b, 0, w);
        self.place = declared_place(p, l);
        self.line = Line::NONE;
    }

    // A definition ends, with these fields.
    fn defined(&mut self, k: usize, a: usize, b: usize, c: usize)
        requires { Ends (tables_of self.old.columns) self.old.place self.old.line k b c }
        ensures { state_of self.new ≡ defined (tables_of self.old.columns) self.old.place self.old.line k a b c }
    {
        let Line {
            node,
            sort,
            after,
            ..
        } = self.line;
        self.columns.entered(node, k, a, b, c, sort);
        let p = self.place;
        let owed = if node == p.owed {
            self.columns.owed_from(p.top, node + 1)
        } else {
            p.owed
        };
        self.place = Place {
            part: part::DEFINES,
            gap: after,
            owed,
            count: p.count + 1,
            ..p
        };
        self.line = Line::NONE;
    }

    // An assertion ends.
    fn asserted(&mut self)
        ensures { state_of self.new ≡ asserted (tables_of self.old.columns) self.old.place self.old.line }
    {
        let p = self.place;
        let due = if p.due < p.top {
            self.columns.due_from(p.top, p.due + 1)
        } else {
            LIMIT
        };
        self.place = Place {
            part: part::ASSERTS,
            due,
            ..p
        };
        self.line = Line::NONE;
    }

    // A term with its operands.
    fn termed(&mut self, a: usize, b: usize, c: usize)
        requires { Terms (tables_of self.old.columns) self.old.place self.old.line b c }
        ensures { state_of self.new ≡ termed (tables_of self.old.columns) self.old.place self.old.line a b c }
    {
        let k = self.kind_of(a);
        let b = self.second_field(b);
        let c = self.third_field(c);
        self.defined(k, a, b, c);
    }

    // A float is converted by 29.
    fn kind_of(&self, a: usize) -> usize
        requires { self.now.line.kind < 256 }
        ensures { Bounded 256 (kind_of (tables_of self.now.columns) self.now.place self.now.line a) result }
    {
        let kind = self.line.kind;
        if kind == 28 && sorts::is_float(sort_at(self.columns.sorts, a) as u64) {
            29
        } else {
            kind
        }
    }

    // The second field of a term with the operand b.
    fn second_field(&self, b: usize) -> usize
        requires { (b < 65536) × (self.now.line.r < 65535) }
        ensures { Bounded 65536 (second_field (tables_of self.now.columns) self.now.place self.now.line b) result }
    {
        let l = &self.line;
        if 2 <= needs::arity(l.kind as u64) {
            return b;
        }
        match l.kind {
            0..=13 | 22 | 25 => 0,
            _ => l.r,
        }
    }

    // The third field of a term with the operand c.
    fn third_field(&self, c: usize) -> usize
        requires { (c < 65536) × ((self.now.line.r < 65535) × (self.now.line.sort < 3905)) }
        ensures { Bounded 65536 (third_field (tables_of self.now.columns) self.now.place self.now.line c) result }
    {
        let l = &self.line;
        match l.kind {
            13 => c,
            14 => (l.r + 1).saturating_sub(l.sort),
            16..=19 => l.r,
            25.. => l.sort,
            _ => 0,
        }
    }

    // A first operand.
    fn operand_0(&mut self, i: usize)
        requires { Terms (tables_of self.old.columns) self.old.place self.old.line 0 0 }
        ensures { state_of self.new ≡ operand₀ (tables_of self.old.columns) self.old.place self.old.line i }
    {
        let l = self.line;
        if 2 <= needs::arity(l.kind as u64) {
            self.line = Line {
                stage: stage::OPERAND_1,
                a: i,
                b: 0,
                ..l
            };
        } else {
            self.termed(i, 0, 0);
        }
    }

    // A second operand.
    fn operand_1(&mut self, i: usize)
        requires { Terms (tables_of self.old.columns) self.old.place self.old.line i 0 }
        ensures { state_of self.new ≡ operand₁ (tables_of self.old.columns) self.old.place self.old.line i }
    {
        let l = self.line;
        if l.kind == 13 {
            self.line = Line {
                stage: stage::OPERAND_2,
                b: i,
                ..l
            };
        } else {
            self.termed(l.a, i, 0);
        }
    }

    // The word `#b1` makes an Ite of an Eq, a rounding a conversion of BvToFp.
    fn word(&mut self, v: usize)
        ensures { state_of self.new ≡ word (tables_of self.old.columns) self.old.place self.old.line v }
    {
        let l = self.line;
        let (kind, r) = match (v, l.kind) {
            (0, _) => (13, 0),
            (_, 25) => (28, v - 1),
            (_, kind) => (kind, v - 1),
        };
        self.line = Line {
            stage: stage::OPERAND_0,
            kind,
            a: 0,
            b: 0,
            r,
            ..l
        };
    }

    // A first operand, or from 65,536 on a word.
    fn first(&mut self, v: usize)
        requires { Terms (tables_of self.old.columns) self.old.place self.old.line 0 0 }
        ensures { state_of self.new ≡ cond (ltb v 65536) (operand₀ (tables_of self.old.columns) self.old.place self.old.line v) (word (tables_of self.old.columns) self.old.place self.old.line (v - 65536)) }
    {
        if v < 65536 {
            self.operand_0(v);
        } else {
            self.word(v - 65536);
        }
    }

    // What opens a term leads to its digits, its place, a word or its first operand.
    fn opened(&mut self, k: usize)
        ensures { state_of self.new ≡ opened (tables_of self.old.columns) self.old.place self.old.line k }
    {
        let l = self.line;
        let (stage, left) = match k {
            6 => (stage::BIT, l.sort),
            14 => (stage::PLACES, l.left),
            9 | 25 | 16..=19 | 23 | 24 | 27 => (stage::FIRST, l.left),
            _ => (stage::OPERAND_0, l.left),
        };
        self.line = Line {
            stage,
            kind: k,
            a: 0,
            b: 0,
            r: 0,
            left,
            ..l
        };
    }

    // A binary digit behind a constant, whose words are a, the low one, and b.
    fn digit(&mut self, d: usize)
        requires { Digits (tables_of self.old.columns) self.old.place self.old.line d }
        ensures { state_of self.new ≡ digit (tables_of self.old.columns) self.old.place self.old.line d }
    {
        let l = self.line;
        let a = l.a % (1 << 63) * 2 + d;
        let b = l.b * 2 + l.a / (1 << 63);
        if l.left == 1 {
            self.defined(6, a, b, l.sort);
        } else {
            self.line = Line {
                stage: stage::BIT,
                kind: 6,
                a,
                b,
                r: 0,
                left: l.left.saturating_sub(1),
                ..l
            };
        }
    }

    // What the choice v leads to in a definition, or in an assertion.
    fn defining(&mut self, v: usize)
        requires { (6 ≤ self.old.line.stage) × Fits (tables_of self.old.columns) self.old.place self.old.line v }
        ensures { state_of self.new ≡ next_at (tables_of self.old.columns) self.old.place self.old.line v }
    {
        let l = self.line;
        match l.stage {
            stage::DEFINED => self.line = Line {
                stage: stage::SORT,
                node: v,
                after: self.columns.gap_from(v + 1),
                ..Line::NONE
            },
            stage::SORT => self.line = Line {
                stage: stage::OPENING,
                node: l.node,
                sort: v,
                after: l.after,
                ..Line::NONE
            },
            stage::OPENING => self.opened(v),
            stage::FIRST => self.first(v),
            stage::OPERAND_0 => self.operand_0(v),
            stage::OPERAND_1 => self.operand_1(v),
            stage::OPERAND_2 => self.termed(l.a, l.b, v),
            stage::PLACES => self.line = Line {
                stage: stage::OPERAND_0,
                a: 0,
                b: 0,
                r: v,
                ..l
            },
            stage::BIT => self.digit(v),
            _ => self.asserted(),
        }
    }

    // What the choice v leads to.
    pub(crate) fn next(&mut self, v: usize)
        requires { Fits (tables_of self.old.columns) self.old.place self.old.line v }
        ensures { state_of self.new ≡ next_at (tables_of self.old.columns) self.old.place self.old.line v }
    {
        let Line { node, kind, .. } = self.line;
        match self.line.stage {
            stage::LINE => self.begun(v),
            stage::DECLARED => self.line = Line {
                stage: stage::KIND,
                node: v,
                ..Line::NONE
            },
            stage::KIND => self.line = Line {
                stage: if v <= 3 { stage::DIGIT } else { stage::NUMBER },
                node,
                kind: v,
                ..Line::NONE
            },
            stage::NUMBER => self.line = Line {
                stage: stage::WIDTH,
                node,
                kind,
                a: v,
                ..Line::NONE
            },
            stage::DIGIT => self.numeral(v),
            stage::WIDTH => self.declared(v),
            _ => self.defining(v),
        }
    }
}

// The place behind a declaration.
#[tactic(auto, unfolding(smtgrammar::specs::Next::declared))]
fn declared_place(p: Place, l: Line) -> Place
    requires { (l.node < 65535) × (p.count < 65536) }
    ensures { (t : grammar.Tables) (w : ℕ) → result ≡ (declared t p l w).place }
{
    let node = l.node;
    let reads = l.kind == 26;
    let next = if node == p.gap {
        node + 2
    } else if node == p.next {
        node + 1
    } else {
        p.next
    };
    Place {
        part: part::DECLARES,
        top: node + 1,
        gap: if node == p.gap { node + 1 } else { p.gap },
        next,
        owed: if reads { p.owed.min(l.a) } else { p.owed },
        due: if reads && p.due == LIMIT { node } else { p.due },
        count: p.count + 1,
    }
}
