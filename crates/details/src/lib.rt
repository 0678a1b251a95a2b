// Why an instruction is declined: the detail that a decline with answer 1 has beside it.
#![tactic(auto)]

ghost use Rattle.std.specs.Prelude.{◌≡◌, length, Some};
ghost use Rattle.forms.specs.Operands.{widths_of};
ghost use Rattle.details.specs.Takes as takes;
ghost use Rattle.details.specs.Why.{reason_of, reason_for, detail_number};
ghost use Rattle.details.specs.Inside.{why_one, why_only, why_pair, why_by};

use forms::{Classified, Instruction, One, Operand, Shape, Two, Widths, families};

// The reasons, in the order in which they are tested, with the numbers of their details.
#[derive(Clone, Copy)]
pub enum Reason {
    UnknownName = 21,
    WrongCount = 22,
    WrongKind = 23,
    UnknownAddress = 24,
    WrongWidth = 25,
}

// A place is taken.
fn place(o: &Operand) -> Option<Reason>
    ensures { result ≡ why_one takes.place o.now }
{
    match families::slot_index(o) {
        Some(_) => None,
        None => Some(Reason::WrongKind),
    }
}

// The place 0 alone is taken.
fn top(o: &Operand) -> Option<Reason>
    ensures { result ≡ why_one takes.st0 o.now }
{
    match families::slot_index(o) {
        Some(index) => (index != 0).then_some(Reason::WrongKind),
        None => Some(Reason::WrongKind),
    }
}

// Memory of a table's widths is taken: the address comes before the width.
fn memory(o: &Operand, widths: Widths) -> Option<Reason>
    ensures { result ≡ why_one (takes.memory (widths_of widths)) o.now }
{
    if o.kind != 1 {
        return Some(Reason::WrongKind);
    }
    if o.known != 1 {
        return Some(Reason::UnknownAddress);
    }
    if !families::takes(widths, o.width) {
        return Some(Reason::WrongWidth);
    }
    None
}

// A place is taken, or memory.
fn place_or(o: &Operand, widths: Widths) -> Option<Reason>
    ensures { result ≡ why_one (takes.place-or (widths_of widths)) o.now }
{
    if o.kind == 0 {
        place(o)
    } else {
        memory(o, widths)
    }
}

// The register `ax` is taken, or memory.
fn ax_or(o: &Operand, widths: Widths) -> Option<Reason>
    ensures { result ≡ why_one (takes.ax-or (widths_of widths)) o.now }
{
    if o.kind != 0 {
        return memory(o, widths);
    }
    if families::ax(o.text.as_bytes()) {
        return None;
    }
    Some(Reason::WrongKind)
}

// A name with one operand.
fn only(one: Option<One>, o: &Operand) -> Option<Reason>
    ensures { result ≡ why_only one o.now }
{
    match one {
        None => Some(Reason::WrongCount),
        Some(One::Place) => place(o),
        Some(One::PlaceOr(widths)) => place_or(o, widths),
        Some(One::Memory(widths)) => memory(o, widths),
        Some(One::AxOr(widths)) => ax_or(o, widths),
    }
}

// A name with two operands, neither of which may be memory: the first detail that one of them has.
fn pair(two: Option<Two>, a: &Operand, b: &Operand) -> Option<Reason>
    ensures { result ≡ why_pair two a.now b.now }
{
    match two {
        None => Some(Reason::WrongCount),
        Some(Two::Second) => place(b),
        Some(Two::TopAnd) => top(a).or(place(b)),
        Some(Two::Places) => place(a).or(place(b)),
    }
}

// A name of this shape with these operands.
fn among(shape: Shape, operands: &[Operand]) -> Option<Reason>
    ensures { result ≡ why_by (Some shape) (length operands.now) operands.now }
{
    match operands {
        [] if shape.alone => None,
        [o] => only(shape.one, o),
        [a, b] => pair(shape.two, a, b),
        _ => Some(Reason::WrongCount),
    }
}

// The reason of an instruction: the first that holds, or none where none does.
pub fn why(insn: &Instruction) -> Option<Reason>
    ensures { result ≡ reason_of insn.now }
{
    let Some(shape) = forms::names::shape(insn.mnemonic.as_bytes()) else {
        return Some(Reason::UnknownName);
    };
    let Some(operands) = insn.operands.get(..insn.count) else {
        return Some(Reason::WrongCount);
    };
    among(shape, operands)
}

// The detail beside an answer of `classify`: that of a decline, and none of any other. Only after a decline it is worked out.
pub fn detail(classified: Classified, insn: &Instruction) -> Option<Reason>
    ensures { result ≡ reason_for classified insn.now }
{
    match classified {
        Ok(None) => why(insn),
        Ok(Some(_)) => None,
        Err(_) => None,
    }
}

// A detail's number, or 0.
pub fn number(detail: Option<Reason>) -> u32
    ensures { result ≡ detail_number detail }
{
    match detail {
        Some(detail) => detail as u32,
        None => 0,
    }
}
