// The SMT-LIB text of formulas: what nodes and sorts are called, by whoever takes the text.
#![tactic(auto)]

ghost use Rattle.std.specs.Prelude.{◌≡◌};
ghost use Rattle.smttext.specs.Names.{declared_is, name_from, format_text, sort_text};

use writing::Sink;

// The parts of a text, in their order.
#[derive(Clone, Copy)]
pub enum Part {
    Declarations,
    Definitions,
    Assertions,
}

// Kinds 1 to 5 and FpToIeeeBv are declared, the others defined. A kind is a number, as in sorts: any word of a lent list is taken.
pub fn is_declared(kind: u64) -> bool
    ensures { result ≡ declared_is kind }
{
    (kind <= 5) | (kind == 26)
}

// The name of node i, of a kind and with a for its first field: `x7_1_0` or `n8`.
pub fn name<S: Sink>(out: &mut S, i: u64, kind: u64, a: u64)
    ensures { S.took (name_from i kind a) out.old out.new }
{
    if is_declared(kind) {
        out.put(b'x');
        out.decimal(i);
        out.put(b'_');
        out.decimal(kind);
        out.put(b'_');
        out.decimal(a);
    } else {
        out.put(b'n');
        out.decimal(i);
    }
}

// Exponent and significand bits of a format.
pub fn format<S: Sink>(out: &mut S, f: u64)
    ensures { S.took (format_text f) out.old out.new }
{
    out.decimal(f / 256);
    out.put(b' ');
    out.decimal(f % 256);
}

// Bits by their width, a float by its format.
pub fn sort<S: Sink>(out: &mut S, s: u64)
    ensures { S.took (sort_text s) out.old out.new }
{
    if s <= 80 {
        out.all(b"(_ BitVec ");
        out.decimal(s);
    } else {
        out.all(b"(_ FloatingPoint ");
        format(out, s);
    }
    out.put(b')');
}
