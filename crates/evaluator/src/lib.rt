// The check that each node of a list has a sort, and the values of the nodes, into a lent column of two words a node, low first.
#![tactic(auto)]

pub mod table;

ghost use Rattle.std.specs.Prelude.{◌≡◌, not, ◌&&◌, ◌++◌, ◌+◌, ◌*◌, ◌%◌, ◌≤◌, ◌<◌, ◌^◌, eqb, ltb, length, get_or, drop};
ghost use Rattle.std.specs.Int.Bits.{bit_and};
ghost use Rattle.words.specs.Wide.{val};
ghost use Rattle.sorts.specs.Lists.{field, sorts};
ghost use Rattle.sorts.specs.Check.{check_of};
ghost use Rattle.evaluator.specs.Formats.{sign_place};
ghost use Rattle.evaluator.specs.Exact.{f_eq, f_lt, is_nan, canon};
ghost use Rattle.evaluator.specs.Value.{width_of, flag_of, is_given, held, computed};
ghost use Rattle.evaluator.specs.Lists.{pair_at, row_value, vals, flat, fits_at, wide_from};
ghost use Rattle.evaluator.specs.Outcome.{of_check, outcome_of, column_after};
ghost use Rattle.evaluator.specs.Inside.{order_of, FormatWords, Patterns, ComputeReady, NamesEntry, Entry, OperandReady, OperandsReady, operand_of, NodeReady, RunReady, ScanReady, Kinds, Columns, TableFor};

use sorts::CheckError;
use words::Wide;

// Why a list is not evaluated.
#[derive(Clone, Copy, Debug, PartialEq, Eq)]
pub enum EvalError {
    // The first node without a sort.
    Fault(usize),
    // The first node whose given value does not fit.
    TooWide(usize),
    // More nodes than the room, or a column too short for them.
    Room,
}

impl From<CheckError> for EvalError {
    ghost from_gives = { λ e r. r ≡ of_check e };

    fn from(e: CheckError) -> EvalError {
        match e {
            CheckError::Fault(i) => EvalError::Fault(i),
            CheckError::Room => EvalError::Room,
        }
    }
}

// A format's words: infinity, all bits below the sign, and the one NaN.
#[derive(Clone, Copy)]
struct Format {
    inf: Wide,
    below: Wide,
    nan: Wide,
}

impl Format {
    const SINGLE: Format = Format {
        inf: Wide {
            hi: 0,
            lo: 0x7f80_0000,
        },
        below: Wide {
            hi: 0,
            lo: 0x7fff_ffff,
        },
        nan: Wide {
            hi: 0,
            lo: 0x7fc0_0000,
        },
    };

    const DOUBLE: Format = Format {
        inf: Wide {
            hi: 0,
            lo: 0x7ff0_0000_0000_0000,
        },
        below: Wide {
            hi: 0,
            lo: 0x7fff_ffff_ffff_ffff,
        },
        nan: Wide {
            hi: 0,
            lo: 0x7ff8_0000_0000_0000,
        },
    };

    const EXTENDED: Format = Format {
        inf: Wide {
            hi: 0x3fff,
            lo: 0x8000_0000_0000_0000,
        },
        below: Wide {
            hi: 0x3fff,
            lo: 0xffff_ffff_ffff_ffff,
        },
        nan: Wide {
            hi: 0x3fff,
            lo: 0xc000_0000_0000_0000,
        },
    };

    // Whether a pattern without its sign is above infinity.
    fn is_nan(self, v: Wide) -> bool
        ensures { result ≡ ltb (val self.inf) (bit_and (val v) (val self.below)) }
    {
        self.inf < (v & self.below)
    }

    // Whether neither of two patterns is a NaN.
    fn numbers(self, x: Wide, y: Wide) -> bool
        ensures { result ≡ not (ltb (val self.inf) (bit_and (val x) (val self.below))) && not (ltb (val self.inf) (bit_and (val y) (val self.below))) }
    {
        !self.is_nan(x) & !self.is_nan(y)
    }
}

// What a function of a format's words gives: it is asked in one arm a format, so each format has code of its own.
fn at_format<R, G: Fn(Format) -> R>(f: u64, of: G) -> R
    requires { G.IsAlwaysCallable of }
    ensures { (w : Format) × FormatWords f (val w.inf) (val w.below) (val w.nan) × G.post of w result }
{
    match f {
        2072 => of(Format::SINGLE),
        2869 => of(Format::DOUBLE),
        _ => of(Format::EXTENDED),
    }
}

fn is_nan(f: u64, v: Wide) -> bool
    ensures { result ≡ is_nan f (val v) }
{
    at_format(f, |w| w.is_nan(v))
}

// Whether a pattern is a zero: all bits below the sign are.
fn is_zero(f: u64, v: Wide) -> bool
    ensures { result ≡ eqb (val v % 2 ^ sign_place f) 0 }
{
    at_format(f, |w| (v & w.below) == Wide::from(0))
}

// Every NaN as the one: exponent all ones, top fraction bit only.
fn canonical(f: u64, v: Wide) -> Wide
    ensures { val result ≡ canon f (val v) }
{
    at_format(f, |w| if w.is_nan(v) { w.nan } else { v })
}

// The order of two patterns as they lie, where s is the sign bit: two with the sign the other way round, and any with it below any without, but for two zeros.
fn order_word(s: u64, x: u64, y: u64) -> bool
    ensures { result ≡ order_of s x y }
{
    let minus = (s <= x) & (y < x) & !((x == s) & (y == 0));
    let plus = (x < y) & (x < s) & (y < s);
    minus | plus
}

// Whether a pattern of format 3904 is no NaN: 1 more than the exponent's upper bits, where the lower word is above infinity's, is not too much.
fn is_number(v: Wide) -> bool
    ensures { result ≡ not (is_nan 3904 (val v)) }
{
    (v.hi & 0x3fff) + u64::from(0x8000_0000_0000_0000 < v.lo) < 0x4000
}

// The order of two patterns of format 3904, whose sign is bit 14 of the upper word.
fn order_pair(x: Wide, y: Wide) -> bool
    requires { Patterns 3904 (val x) (val y) }
    ensures { result ≡ order_of (2 ^ 78) (val x) (val y) }
{
    let up = x.hi < y.hi + u64::from(x.lo < y.lo);
    let down = y.hi < x.hi + u64::from(y.lo < x.lo);
    let zeros = (x.hi == 0x4000) & (x.lo == 0) & (y.hi == 0) & (y.lo == 0);
    let minus = (0x4000 <= x.hi) & down & !zeros;
    let plus = up & (x.hi < 0x4000) & (y.hi < 0x4000);
    minus | plus
}

// Of the narrow formats the low word is all.
fn less(f: u64, x: Wide, y: Wide) -> bool
    requires { Patterns f (val x) (val y) }
    ensures { result ≡ f_lt f (val x) (val y) }
{
    match f {
        2072 => Format::SINGLE.numbers(x, y) & order_word(0x8000_0000, x.lo, y.lo),
        2869 => Format::DOUBLE.numbers(x, y) & order_word(0x8000_0000_0000_0000, x.lo, y.lo),
        _ => is_number(x) & is_number(y) & order_pair(x, y),
    }
}

// Two patterns that differ are equal only as zeros.
fn equal(f: u64, x: Wide, y: Wide) -> bool
    requires { Patterns f (val x) (val y) }
    ensures { result ≡ f_eq f (val x) (val y) }
{
    if x == y {
        !is_nan(f, x)
    } else {
        is_zero(f, x) & is_zero(f, y)
    }
}

fn flag(b: bool) -> Wide
    ensures { val result ≡ flag_of b }
{
    Wide::from(u64::from(b))
}

// The value of a node that is not given, from its row, its operands' sorts and values. A kind is a number, since a row is four words of a list that C lends.
#[tactic(auto, unfolding(crate::specs::Value::computed))]
fn compute(k: u64, a: u64, b: u64, c: u64, sa: u64, sb: u64, va: Wide, vb: Wide, vc: Wide) -> Wide
    requires { ComputeReady k sa sb (val va) (val vb) }
    ensures { val result ≡ computed k a b c sa sb (val va) (val vb) (val vc) }
{
    match k {
        6 => Wide { hi: b, lo: a },
        7 => va & vb,
        8 => va ^ vb,
        9 => flag(va == vb),
        10 => Wide::from(va.lo & vb.lo),
        11 => Wide::from(va.lo | vb.lo),
        12 => Wide::from(va.lo ^ 1),
        13 => if va.lo == 1 { vb } else { vc },
        14 => va.extract(b, c),
        15 => va.concat(vb, sb),
        20 => flag(equal(sa, va, vb)),
        21 => flag(less(sa, va, vb)),
        22 => flag(is_nan(sa, va)),
        25 => canonical(c, va),
        26 => va,
        _ => Wide::from(0),
    }
}

// The kinds whose value is given, a bit for each.
fn is_given(k: u64) -> bool
    requires { k < 64 }
    ensures { result ≡ is_given k }
{
    (0x398f_003eu64 >> k) & 1 == 1
}

// What a given value is held as.
#[tactic(auto, unfolding(crate::specs::Value::held))]
fn hold(s: u64, g: Wide) -> Wide
    ensures { val result ≡ held s (val g) }
{
    if 80 < s && sorts::is_float(s) {
        canonical(s, g)
    } else {
        g
    }
}

// How many bits a value of a sort has.
fn width_of(s: u64) -> u64
    ensures { result ≡ width_of s }
{
    if 80 < s && sorts::is_float(s) {
        sorts::pattern_width(s)
    } else {
        s
    }
}

// The sort of the node that word j of the list names.
fn sort_at(nodes: &[u64], j: usize, t: &[u16]) -> u64
    requires { NamesEntry nodes.now j t.now }
    ensures { result ≡ get_or t.now (get_or nodes.now j 0) 0 }
{
    u64::from(t[nodes[j] as usize])
}

// Entry i of a column.
fn pair_at(column: &[u64], i: usize) -> Wide
    requires { Entry column.now i }
    ensures { val result ≡ pair_at column.now i }
{
    Wide {
        hi: column[2 * i + 1],
        lo: column[2 * i],
    }
}

// The value of operand p of node i, where the node's kind has N of them and so many are looked at.
fn operand<const N: usize>(nodes: &[u64], i: usize, p: usize, column: &[u64]) -> Wide
    requires { OperandReady N nodes.now i p column.now }
    ensures { val result ≡ operand_of N nodes.now i column.now p }
{
    if p <= N {
        pair_at(column, nodes[4 * i + p] as usize)
    } else {
        Wide::from(0)
    }
}

// The value of a node with N operands, entries of the column, whose sorts are handed over where its kind looks at them.
fn compute_at<const N: usize>(
    k: u64,
    nodes: &[u64],
    i: usize,
    sa: u64,
    sb: u64,
    column: &[u64],
) -> Wide
    requires { OperandsReady N k sa sb nodes.now i column.now }
    ensures { val result ≡ computed k (field nodes.now i 1) (field nodes.now i 2) (field nodes.now i 3) sa sb (operand_of N nodes.now i column.now 1) (operand_of N nodes.now i column.now 2) (operand_of N nodes.now i column.now 3) }
{
    let j = 4 * i;
    compute(
        k,
        nodes[j + 1],
        nodes[j + 2],
        nodes[j + 3],
        sa,
        sb,
        operand::<N>(nodes, i, 1, column),
        operand::<N>(nodes, i, 2, column),
        operand::<N>(nodes, i, 3, column),
    )
}

// The value of node i, from the sorts and the values of the earlier nodes: of each kind what it looks at. The four slices are not one struct: `run` writes to the column between two calls.
fn node_value(nodes: &[u64], given: &[u64], t: &[u16], column: &[u64], i: usize) -> Wide
    requires { NodeReady nodes.now given.now t.now column.now i }
    ensures { val result ≡ row_value nodes.now given.now i (sorts nodes.now i) (vals nodes.now given.now i) }
{
    let j = 4 * i;
    match nodes[j] {
        6 => compute_at::<0>(6, nodes, i, 0, 0, column),
        7 => compute_at::<2>(7, nodes, i, 0, 0, column),
        8 => compute_at::<2>(8, nodes, i, 0, 0, column),
        9 => compute_at::<2>(9, nodes, i, 0, 0, column),
        10 => compute_at::<2>(10, nodes, i, 0, 0, column),
        11 => compute_at::<2>(11, nodes, i, 0, 0, column),
        12 => compute_at::<1>(12, nodes, i, 0, 0, column),
        13 => compute_at::<3>(13, nodes, i, 0, 0, column),
        14 => compute_at::<1>(14, nodes, i, 0, 0, column),
        15 => compute_at::<2>(15, nodes, i, 0, sort_at(nodes, j + 2, t), column),
        20 => compute_at::<2>(20, nodes, i, sort_at(nodes, j + 1, t), 0, column),
        21 => compute_at::<2>(21, nodes, i, sort_at(nodes, j + 1, t), 0, column),
        22 => compute_at::<1>(22, nodes, i, sort_at(nodes, j + 1, t), 0, column),
        25 => compute_at::<1>(25, nodes, i, 0, 0, column),
        26 => compute_at::<1>(26, nodes, i, 0, 0, column),
        _ => hold(u64::from(t[i]), pair_at(given, i)),
    }
}

// Whether the given value of node i fits, where the node takes one.
fn fits_at(nodes: &[u64], given: &[u64], t: &[u16], i: usize) -> bool
    requires { (i < 65535) × (4 * i + 4 ≤ length nodes.now) × (2 * i + 2 ≤ length given.now) × (i < length t.now) × (get_or nodes.now (4 * i) 0 < 64) }
    ensures { result ≡ fits_at nodes.now given.now i (get_or t.now i 0) }
{
    if is_given(nodes[4 * i]) {
        pair_at(given, i).fits(width_of(u64::from(t[i])))
    } else {
        true
    }
}

// Whether each given value fits; else the first node whose value does not.
fn first_wide(nodes: &[u64], count: usize, given: &[u64], t: &[u16]) -> Result<(), EvalError>
    requires { ScanReady nodes.now given.now t.now count × Kinds nodes.now count }
    ensures { result ≡ wide_from nodes.now given.now 0 count }
{
    for i in 0..count {
        if !fits_at(nodes, given, t, i) {
            return Err(EvalError::TooWide(i));
        }
    }
    Ok(())
}

// The values of the first `count` nodes, into the column.
fn run(nodes: &[u64], count: usize, given: &[u64], t: &[u16], column: &mut [u64])
    requires { RunReady nodes.now given.now t.now column.old count }
    ensures { column.new ≡ flat (vals nodes.now given.now count) ++ drop (2 * count) column.old }
{
    for i in 0..count {
        let v = node_value(nodes, given, t, &*column, i);
        column[2 * i] = v.lo;
        column[2 * i + 1] = v.hi;
    }
}

// The check over a table of N entries: it is cleared for each call, so few nodes have a short one.
fn check_in<const N: usize>(nodes: &[u64], count: usize) -> Result<(), CheckError>
    requires { TableFor count N }
    ensures { result ≡ check_of nodes.now count }
{
    let mut t = [0u16; N];
    table::fill(nodes, count, &mut t)
}

// Whether each of the first `count` nodes has a sort; else the first that has none. The count is the caller's: one over the rows is refused, so no slice is cut to it.
pub fn check(nodes: &[u64], count: usize) -> Result<(), CheckError>
    ensures { result ≡ check_of nodes.now count }
{
    if count <= 1024 {
        check_in::<1024>(nodes, count)
    } else {
        check_in::<65536>(nodes, count)
    }
}

// The evaluation with columns long enough, over a table of N entries.
fn evaluate_in<const N: usize>(
    nodes: &[u64],
    count: usize,
    given: &[u64],
    column: &mut [u64],
) -> Result<(), EvalError>
    requires { TableFor count N × Columns count given.now column.old }
    ensures { (result ≡ outcome_of nodes.now count given.now (length column.old)) × (column.new ≡ column_after result nodes.now count given.now column.old) }
{
    let mut t = [0u16; N];
    table::fill(nodes, count, &mut t)?;
    first_wide(nodes, count, given, &t)?;
    run(nodes, count, given, &t, column);
    Ok(())
}

// The values of the first `count` nodes into the column, or what stands in the way.
pub fn evaluate(
    nodes: &[u64],
    count: usize,
    given: &[u64],
    column: &mut [u64],
) -> Result<(), EvalError>
    ensures { (result ≡ outcome_of nodes.now count given.now (length column.old)) × (column.new ≡ column_after result nodes.now count given.now column.old) }
{
    if given.len() / 2 < count || column.len() / 2 < count {
        return Err(EvalError::Room);
    }
    if count <= 1024 {
        evaluate_in::<1024>(nodes, count, given, column)
    } else {
        evaluate_in::<65536>(nodes, count, given, column)
    }
}
