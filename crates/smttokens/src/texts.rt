// The text of each choice, held against the front of another.
#![tactic(auto, unfolding(writing::specs::Bytes::bytes, smttext::specs::Names::name_from, smttext::specs::Names::declared_name, smttext::specs::Names::defined_name, smttext::specs::Names::format_text, smttext::specs::Names::sort_text, smtgrammar::specs::Tokens::line_text, smtgrammar::specs::Tokens::opening_text, smtgrammar::specs::Tokens::mark_text, smtgrammar::specs::Tokens::word_text, smtgrammar::specs::Tokens::node_name, smtgrammar::specs::Tokens::asserted_text, smtgrammar::specs::Tokens::text_at, smtgrammar::specs::Grammar::size_at))]

ghost use Rattle.std.specs.Prelude.{◌≡◌, cond, [], ◌∷◌, ◌++◌, ◌+◌, ◌-◌, ◌<◌, ltb, eqb, get_or};
ghost use Rattle.writing.specs.Bytes.{bytes, decimal};
ghost use Rattle.smttext.specs.Names.{name_from, format_text, sort_text};
ghost use Rattle.smtgrammar.specs.Tokens.{line_text, opening_text, mark_text, word_text, node_name, asserted_text, operand_text, text_at};
ghost use Rattle.smtgrammar.specs.Grammar.{size_at};
ghost use Rattle.smtchoices.specs.Seen.{seen};
ghost use Rattle.smttokens.specs.Matches.{Matches, Extends};

use crate::matching::{Front, all, decimal, one};
use smtchoices::{State, Tables};
use smtgrammar::{part, stage};

// The first field of node i, 0 where there is none. The columns of the reader have the same: two structs, one line each.
fn first_at(t: &Tables, i: usize) -> u64
    ensures { result ≡ get_or t.now.firsts.now i 0 }
{
    t.firsts.get(i).copied().unwrap_or(0)
}

// The name of node i, of a kind and with a for its first field.
fn name(x: &[u8], at: usize, i: u64, k: u64, a: u64) -> Result<usize, usize>
    ensures { Extends (name_from i k a) x.now at result }
{
    let mut front = Front {
        text: x,
        end: Ok(at),
    };
    smttext::name(&mut front, i, k, a);
    front.end
}

// Exponent and significand bits of a format.
fn format(x: &[u8], at: usize, f: u64) -> Result<usize, usize>
    ensures { Extends (format_text f) x.now at result }
{
    let mut front = Front {
        text: x,
        end: Ok(at),
    };
    smttext::format(&mut front, f);
    front.end
}

// Bits by their width, a float by its format.
fn sort(x: &[u8], at: usize, s: u64) -> Result<usize, usize>
    ensures { Extends (sort_text s) x.now at result }
{
    let mut front = Front {
        text: x,
        end: Ok(at),
    };
    smttext::sort(&mut front, s);
    front.end
}

// What opens a conversion to a float.
fn to_fp(x: &[u8], at: usize, s: u64) -> Result<usize, usize>
    ensures { Extends (bytes "((_ to_fp " ++ (format_text s ++ bytes ") ")) x.now at result }
{
    let p = all(x, at, b"((_ to_fp ")?;
    let q = format(x, p, s)?;
    all(x, q, b") ")
}

// What opens a conversion to a whole number.
fn to_sbv(x: &[u8], at: usize, s: u64) -> Result<usize, usize>
    ensures { Extends (bytes "((_ fp.to_sbv " ++ (decimal s ++ bytes ") ")) x.now at result }
{
    let p = all(x, at, b"((_ fp.to_sbv ")?;
    let q = decimal(x, p, s)?;
    all(x, q, b") ")
}

// What opens a term of kind k and sort s.
pub(crate) fn opening(x: &[u8], at: usize, k: usize, s: usize) -> Result<usize, usize>
    ensures { Extends (opening_text k s) x.now at result }
{
    match k {
        6 => all(x, at, b"#b"),
        7 => all(x, at, b"(bvand "),
        8 => all(x, at, b"(bvxor "),
        9 => all(x, at, b"(ite (= "),
        10 => all(x, at, b"(ite (and (= #b1 "),
        11 => all(x, at, b"(ite (or (= #b1 "),
        12 => all(x, at, b"(ite (not (= #b1 "),
        14 => all(x, at, b"((_ extract "),
        15 => all(x, at, b"(concat "),
        16 => all(x, at, b"(fp.add "),
        17 => all(x, at, b"(fp.sub "),
        18 => all(x, at, b"(fp.mul "),
        19 => all(x, at, b"(fp.div "),
        20 => all(x, at, b"(ite (fp.eq "),
        21 => all(x, at, b"(ite (fp.lt "),
        22 => all(x, at, b"(ite (fp.isNaN "),
        23 => all(x, at, b"(fp.sqrt "),
        24 => all(x, at, b"(fp.roundToIntegral "),
        25 => to_fp(x, at, s as u64),
        _ => to_sbv(x, at, s as u64),
    }
}

// What stands behind operand j of kind k.
fn mark(x: &[u8], at: usize, k: usize, j: usize) -> Result<usize, usize>
    ensures { Extends (mark_text k j) x.now at result }
{
    match (j, k) {
        (0, 10 | 11) => all(x, at, b") (= #b1 "),
        (0, 12) => all(x, at, b")) #b1 #b0))\n"),
        (0, 13) => all(x, at, b") "),
        (0, 22) => all(x, at, b") #b1 #b0))\n"),
        (0, _) if 2 <= needs::arity(k as u64) => one(x, at, b' '),
        (1, 9 | 20 | 21) => all(x, at, b") #b1 #b0))\n"),
        (1, 10 | 11) => all(x, at, b")) #b1 #b0))\n"),
        (1, 13) => one(x, at, b' '),
        _ => all(x, at, b"))\n"),
    }
}

// A word in the place of a first operand.
fn word(x: &[u8], at: usize, v: usize) -> Result<usize, usize>
    ensures { Extends (word_text v) x.now at result }
{
    match v {
        0 => all(x, at, b"#b1 "),
        1 => all(x, at, b"RNE "),
        _ => all(x, at, b"RTZ "),
    }
}

// What begins a line.
fn line(x: &[u8], at: usize, v: usize) -> Result<usize, usize>
    ensures { Extends (line_text v) x.now at result }
{
    match v {
        part::DECLARES => all(x, at, b"(declare-fun x"),
        part::DEFINES => all(x, at, b"(define-fun n"),
        _ => all(x, at, b"(assert (= "),
    }
}

// A number, and a byte behind it.
fn number(x: &[u8], at: usize, v: usize, b: u8) -> Result<usize, usize>
    ensures { Extends (decimal v ++ (b ∷ [])) x.now at result }
{
    let p = decimal(x, at, v as u64)?;
    one(x, p, b)
}

// A decimal digit, or 10, the end of a number.
fn numeral(x: &[u8], at: usize, v: usize) -> Result<usize, usize>
    requires { v < 11 }
    ensures { Extends (cond (eqb v 10) (bytes " ") ((48 + v) ∷ [])) x.now at result }
{
    match v {
        10 => one(x, at, b' '),
        _ => one(x, at, b'0' + v as u8),
    }
}

// The width of a declared node.
fn width(x: &[u8], at: usize, v: usize) -> Result<usize, usize>
    ensures { Extends (bytes "() (_ BitVec " ++ (decimal v ++ bytes "))\n")) x.now at result }
{
    let p = all(x, at, b"() (_ BitVec ")?;
    let q = decimal(x, p, v as u64)?;
    all(x, q, b"))\n")
}

// The sort of a defined node.
fn sorted(x: &[u8], at: usize, v: usize) -> Result<usize, usize>
    ensures { Extends (bytes "() " ++ (sort_text v ++ bytes " ")) x.now at result }
{
    let p = all(x, at, b"() ")?;
    let q = sort(x, p, v as u64)?;
    one(x, q, b' ')
}

// The two places of an Extract of s bits.
fn places(x: &[u8], at: usize, v: usize, s: usize) -> Result<usize, usize>
    requires { v < 80 }
    ensures { Extends (decimal v ++ (bytes " " ++ (decimal (v + 1 - s) ++ bytes ") "))) x.now at result }
{
    let p = decimal(x, at, v as u64)?;
    let q = one(x, p, b' ')?;
    let r = decimal(x, q, (v + 1).saturating_sub(s) as u64)?;
    all(x, r, b") ")
}

// A binary digit, and the end of the line behind the last one.
fn bit(x: &[u8], at: usize, left: usize, v: usize) -> Result<usize, usize>
    requires { v < 2 }
    ensures { Extends ((48 + v) ∷ cond (eqb left 1) (bytes ")\n") []) x.now at result }
{
    let p = one(x, at, b'0' + v as u8)?;
    if left == 1 { all(x, p, b")\n") } else { Ok(p) }
}

// The name of node i.
fn node(x: &[u8], at: usize, s: &State, i: usize) -> Result<usize, usize>
    ensures { Extends (node_name (seen s.now.tables) s.now.place s.now.line i) x.now at result }
{
    let k = smtchoices::kind_at(s.tables.kinds, i);
    name(x, at, i as u64, k as u64, first_at(&s.tables, i))
}

// A name in the place of operand j.
fn operand(x: &[u8], at: usize, s: &State, j: usize, i: usize) -> Result<usize, usize>
    ensures { Extends (operand_text (seen s.now.tables) s.now.place s.now.line j i) x.now at result }
{
    let p = node(x, at, s, i)?;
    mark(x, p, s.line.kind, j)
}

// A first operand, or from 65,536 on a word.
fn first(x: &[u8], at: usize, s: &State, v: usize) -> Result<usize, usize>
    ensures { Extends (cond (ltb v 65536) (operand_text (seen s.now.tables) s.now.place s.now.line 0 v) (word_text (v - 65536))) x.now at result }
{
    if v < 65536 {
        operand(x, at, s, 0, v)
    } else {
        word(x, at, v - 65536)
    }
}

// What is left of the assertion that is due.
fn asserted(x: &[u8], at: usize, s: &State) -> Result<usize, usize>
    ensures { Extends (asserted_text (seen s.now.tables) s.now.place s.now.line) x.now at result }
{
    let due = s.place.due;
    let a = first_at(&s.tables, due) as usize;
    let f = smtchoices::sort_at(s.tables.sorts, a);
    let p = to_fp(x, at, f as u64)?;
    let q = node(x, p, s, due)?;
    let r = all(x, q, b") ")?;
    let t = node(x, r, s, a)?;
    all(x, t, b"))\n")
}

// How much of the text of the choice v is there, at the line's stage.
#[tactic(auto, using(crate::specs::Matches::whole), unfolding(writing::specs::Bytes::bytes, smtgrammar::specs::Tokens::node_name, smtgrammar::specs::Tokens::asserted_text, smtgrammar::specs::Tokens::text_at, smtgrammar::specs::Grammar::size_at))]
pub(crate) fn text_at(x: &[u8], s: &State, v: usize) -> Result<usize, usize>
    requires { v < size_at s.now.line.stage }
    ensures { Matches (text_at (seen s.now.tables) s.now.place s.now.line v) x.now result }
{
    match s.line.stage {
        stage::LINE => line(x, 0, v),
        stage::DECLARED => number(x, 0, v, b'_'),
        stage::KIND => number(x, 0, v, b'_'),
        stage::NUMBER => number(x, 0, v, b' '),
        stage::DIGIT => numeral(x, 0, v),
        stage::WIDTH => width(x, 0, v),
        stage::DEFINED => number(x, 0, v, b' '),
        stage::SORT => sorted(x, 0, v),
        stage::OPENING => opening(x, 0, v, s.line.sort),
        stage::FIRST => first(x, 0, s, v),
        stage::OPERAND_0 => operand(x, 0, s, 0, v),
        stage::OPERAND_1 => operand(x, 0, s, 1, v),
        stage::OPERAND_2 => operand(x, 0, s, 2, v),
        stage::PLACES => places(x, 0, v, s.line.sort),
        stage::BIT => bit(x, 0, s.line.left, v),
        _ => asserted(x, 0, s),
    }
}
