// What each family makes of its operands.
ghost use Rattle.std.specs.Prelude.{◌≡◌};
ghost use Rattle.forms.specs.Operands.{slot_of, takes_of, width_of, operands_in, ax_of};
ghost use Rattle.forms.specs.Families.{plain_of, exchange_of, load_of, store_of, status_compare_of, flag_compare_of, conditional_of, store_status_of, integer_width, integer_arith_of, integer_compare_of, arith_of, form_of};

use super::{
    ArithSrc, Family, Form, MemFormat, MemorySource, Operand, StoreSpec, Widths, X87Arith,
    X87Condition,
};

// The place that an operand names: a register's text.
pub fn slot_index(o: &Operand) -> Option<u32>
    ensures { result ≡ slot_of o.now }
{
    if o.kind != 0 {
        return None;
    }
    texts::slot_index(o.text.as_bytes())
}

// Whether a table of widths has a width.
pub fn takes(widths: Widths, width: u16) -> bool
    ensures { result ≡ takes_of widths width }
{
    match widths {
        Widths::FloatWidths => matches!(width, 32 | 64 | 80),
        Widths::FloatShort => matches!(width, 32 | 64),
        Widths::IntWidths => matches!(width, 16 | 32 | 64),
        Widths::IntArith | Widths::IntStore => matches!(width, 16 | 32),
        Widths::StatusWidth => width == 16,
    }
}

// The width of a memory operand whose address is known, where the table has it.
fn modellable_memory_width(o: &Operand, widths: Widths) -> Option<u16>
    ensures { result ≡ width_of widths o.now }
{
    (o.kind == 1 && o.known == 1 && takes(widths, o.width)).then_some(o.width)
}

// A name that takes no operand.
fn no_operands(operands: &[Operand], form: Form) -> Option<Form>
    ensures { result ≡ plain_of form (operands_in operands.now) }
{
    operands.is_empty().then_some(form)
}

// With no operand, place 1.
fn classify_exchange(operands: &[Operand]) -> Option<Form>
    ensures { result ≡ exchange_of (operands_in operands.now) }
{
    match operands {
        [] => Some(Form::Exchange(1)),
        [o] => Some(Form::Exchange(slot_index(o)?)),
        _ => None,
    }
}

// A place, as a float alone, or memory.
fn classify_load(operands: &[Operand], format: MemFormat, widths: Widths) -> Option<Form>
    ensures { result ≡ load_of format widths (operands_in operands.now) }
{
    let [o] = operands else {
        return None;
    };
    match (slot_index(o), format) {
        (Some(index), MemFormat::Float) => Some(Form::PushSlot(index)),
        (Some(_), MemFormat::Integer) => None,
        (None, _) => Some(Form::PushMemory {
            width: modellable_memory_width(o, widths)?,
            format,
        }),
    }
}

// A place, for a float alone, or memory.
fn classify_store(operands: &[Operand], spec: StoreSpec) -> Option<Form>
    ensures { result ≡ store_of spec (operands_in operands.now) }
{
    let [o] = operands else {
        return None;
    };
    match (slot_index(o), spec.format) {
        (Some(index), MemFormat::Float) => Some(Form::StoreSlot {
            index,
            pop: spec.pop,
        }),
        (Some(_), MemFormat::Integer) => None,
        (None, _) => Some(Form::StoreMemory {
            width: modellable_memory_width(o, spec.widths)?,
            format: spec.format,
            pop: spec.pop,
            rounding: spec.rounding,
        }),
    }
}

// With no operand the source is place 1; else a place, or memory where it may have one.
fn classify_status_compare(operands: &[Operand], pops: u8, memory: MemorySource) -> Option<Form>
    ensures { result ≡ status_compare_of pops memory (operands_in operands.now) }
{
    let src = match operands {
        [] => ArithSrc::Slot(1),
        [o] => match (slot_index(o), memory) {
            (Some(index), _) => ArithSrc::Slot(index),
            (None, MemorySource::Allowed) => ArithSrc::Memory {
                width: modellable_memory_width(o, Widths::FloatShort)?,
                format: MemFormat::Float,
            },
            (None, MemorySource::Forbidden) => return None,
        },
        _ => return None,
    };
    Some(Form::CompareStatus { src, pops })
}

// With two operands the second alone is read.
fn classify_flag_compare(operands: &[Operand], pop: bool) -> Option<Form>
    ensures { result ≡ flag_compare_of pop (operands_in operands.now) }
{
    let ([o] | [_, o]) = operands else {
        return None;
    };
    Some(Form::CompareFlags {
        src: slot_index(o)?,
        pop,
    })
}

// Two places, the first of them the top.
fn classify_conditional_move(operands: &[Operand], condition: X87Condition) -> Option<Form>
    ensures { result ≡ conditional_of condition (operands_in operands.now) }
{
    let [dst, src] = operands else {
        return None;
    };
    let dst = slot_index(dst)?;
    let src = slot_index(src)?;
    (dst == 0).then_some(Form::ConditionalMove { src, condition })
}

// Whether a text names the register `ax`.
pub fn ax(s: &[u8]) -> bool
    ensures { result ≡ ax_of s.now }
{
    texts::eq_ignore_ascii_case(texts::trim(s), b"ax")
}

// The register `ax`, or memory of 16 bits.
fn classify_store_status(operands: &[Operand]) -> Option<Form>
    ensures { result ≡ store_status_of (operands_in operands.now) }
{
    let [o] = operands else {
        return None;
    };
    if o.kind == 0 {
        return ax(o.text.as_bytes()).then_some(Form::StoreStatus);
    }
    modellable_memory_width(o, Widths::StatusWidth)?;
    Some(Form::StoreStatus)
}

// The width of the only operand, memory that holds an integer.
fn integer_width(operands: &[Operand]) -> Option<u16>
    ensures { result ≡ integer_width (operands_in operands.now) }
{
    let [o] = operands else {
        return None;
    };
    modellable_memory_width(o, Widths::IntArith)
}

fn classify_integer_arith(operands: &[Operand], op: X87Arith, reversed: bool) -> Option<Form>
    ensures { result ≡ integer_arith_of op reversed (integer_width (operands_in operands.now)) }
{
    let width = integer_width(operands)?;
    Some(Form::Arith {
        op,
        dst: 0,
        src: ArithSrc::Memory {
            width,
            format: MemFormat::Integer,
        },
        reversed,
        pop: false,
    })
}

fn classify_integer_compare(operands: &[Operand], pops: u8) -> Option<Form>
    ensures { result ≡ integer_compare_of pops (integer_width (operands_in operands.now)) }
{
    let width = integer_width(operands)?;
    Some(Form::CompareStatus {
        src: ArithSrc::Memory {
            width,
            format: MemFormat::Integer,
        },
        pops,
    })
}

// Without an operand places 1 and 0, with a pop alone. One operand: a place is the source, or with a pop the destination; memory has no popping form. Two operands: the destination and the source.
fn classify_arith(operands: &[Operand], op: X87Arith, reversed: bool, pop: bool) -> Option<Form>
    ensures { result ≡ arith_of op reversed pop (operands_in operands.now) }
{
    let (dst, src) = match operands {
        [] if pop => (1, ArithSrc::Slot(0)),
        [o] => match slot_index(o) {
            Some(index) if pop => (index, ArithSrc::Slot(0)),
            Some(index) => (0, ArithSrc::Slot(index)),
            None if pop => return None,
            None => {
                let width = modellable_memory_width(o, Widths::FloatShort)?;
                let format = MemFormat::Float;
                (0, ArithSrc::Memory { width, format })
            }
        },
        [dst, src] => (slot_index(dst)?, ArithSrc::Slot(slot_index(src)?)),
        _ => return None,
    };
    Some(Form::Arith {
        op,
        dst,
        src,
        reversed,
        pop,
    })
}

// What a name's family makes of the operands below the count.
pub(crate) fn form(family: Family, operands: &[Operand]) -> Option<Form>
    ensures { result ≡ form_of family (operands_in operands.now) }
{
    match family {
        Family::Plain(form) => no_operands(operands, form),
        Family::Exchange => classify_exchange(operands),
        Family::Load { format, widths } => classify_load(operands, format, widths),
        Family::Store(spec) => classify_store(operands, spec),
        Family::StatusCompare { pops, memory } => classify_status_compare(operands, pops, memory),
        Family::PairedCompare => no_operands(
            operands,
            Form::CompareStatus {
                src: ArithSrc::Slot(1),
                pops: 2,
            },
        ),
        Family::FlagCompare { pop } => classify_flag_compare(operands, pop),
        Family::StoreStatus => classify_store_status(operands),
        Family::ConditionalMove(condition) => classify_conditional_move(operands, condition),
        Family::IntegerArith { op, reversed } => classify_integer_arith(operands, op, reversed),
        Family::IntegerCompare { pops } => classify_integer_compare(operands, pops),
        Family::Arith { op, reversed, pop } => classify_arith(operands, op, reversed, pop),
    }
}
