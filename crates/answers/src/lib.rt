// The numbers of answers and forms, as the definitions of the crates below give them: what goes outside goes through these.
#![tactic(auto)]

pub mod refusal;
mod smt;
mod values;

ghost use Rattle.std.specs.Prelude.{◌≡◌, [], ◌∷◌};
ghost use Rattle.forms.specs.Numbers as forms;

use forms::{Affected, ArithSrc, BadInstruction, Classified, Effect, Form, X87Arith};

// A source in three words: 0 for a place and 1 for memory, the place or the width, the format.
fn source(s: ArithSrc) -> [u64; 3]
    ensures { result ≡ forms.src_kind s ∷ forms.src_value s ∷ forms.src_format s ∷ [] }
{
    match s {
        ArithSrc::Slot(i) => [0, u64::from(i), 0],
        ArithSrc::Memory { width, format } => [1, u64::from(width), format as u64],
    }
}

// A number and up to four fields in eight words.
fn row(k: u64, a: u64, b: u64, c: u64, d: u64) -> [u64; 8]
    ensures { result ≡ k ∷ a ∷ b ∷ c ∷ d ∷ 0 ∷ 0 ∷ 0 ∷ [] }
{
    [k, a, b, c, d, 0, 0, 0]
}

// The form with the most fields.
fn arith_row(op: X87Arith, dst: u32, src: ArithSrc, reversed: bool, pop: bool) -> [u64; 8]
    ensures { result ≡ forms.words_of (Form.Arith op dst src reversed pop) }
{
    let [kind, value, format] = source(src);
    [
        6,
        op as u64,
        u64::from(dst),
        kind,
        value,
        format,
        u64::from(reversed),
        u64::from(pop),
    ]
}

// A form in eight words.
fn words(form: Form) -> [u64; 8]
    ensures { result ≡ forms.words_of form }
{
    match form {
        Form::PushConst { low, high } => row(1, low, high, 0, 0),
        Form::PushMemory { width, format } => row(2, u64::from(width), format as u64, 0, 0),
        Form::PushSlot(index) => row(3, u64::from(index), 0, 0, 0),
        Form::StoreMemory {
            width,
            format,
            pop,
            rounding,
        } => row(
            4,
            u64::from(width),
            format as u64,
            u64::from(pop),
            rounding as u64,
        ),
        Form::StoreSlot { index, pop } => row(5, u64::from(index), u64::from(pop), 0, 0),
        Form::Arith {
            op,
            dst,
            src,
            reversed,
            pop,
        } => arith_row(op, dst, src, reversed, pop),
        Form::CompareStatus { src, pops } => {
            let [kind, value, format] = source(src);
            row(7, kind, value, format, u64::from(pops))
        }
        Form::CompareFlags { src, pop } => row(8, u64::from(src), u64::from(pop), 0, 0),
        Form::ConditionalMove { src, condition } => row(9, u64::from(src), condition as u64, 0, 0),
        Form::StoreStatus => row(10, 0, 0, 0, 0),
        Form::Exchange(index) => row(11, u64::from(index), 0, 0, 0),
        Form::Unary(op) => row(12, op as u64, 0, 0, 0),
    }
}

// The number of an answer on a form or an effect.
pub fn number<T>(r: &Result<Option<T>, BadInstruction>) -> u32
    ensures { result ≡ forms.number_of r.now }
{
    match r {
        Ok(Some(_)) => 0,
        Ok(None) => 1,
        Err(BadInstruction::Text) => 3,
        Err(BadInstruction::Operands) => 4,
    }
}

// The form's words: zeros beside a decline and a refusal.
pub fn fields(c: Classified) -> [u64; 8]
    ensures { result ≡ forms.fields_of c }
{
    match c {
        Ok(Some(f)) => words(f),
        Ok(None) | Err(_) => [0; 8],
    }
}

// The seven flags of an effect.
fn flags(e: Effect) -> [u64; 7]
    ensures { result ≡ forms.flags_of e }
{
    [
        u64::from(e.defines_stack),
        u64::from(e.defines_status),
        u64::from(e.uses_stack),
        u64::from(e.uses_status),
        u64::from(e.defines_flags),
        u64::from(e.reads_flags),
        u64::from(e.writes_ax),
    ]
}

// The effect's flags: zeros as well.
pub fn effect_fields(a: Affected) -> [u64; 7]
    ensures { result ≡ forms.effect_fields a }
{
    match a {
        Ok(Some(e)) => flags(e),
        Ok(None) | Err(_) => [0; 7],
    }
}
