// Instructions with decoded operands, what each does to the x87 stack, and what it touches besides.
#![tactic(auto)]

pub mod families;
pub mod names;

ghost use Rattle.std.specs.Prelude.{◌≡◌};
ghost use Rattle.texts.specs.Bytes.{all};
ghost use Rattle.forms.specs.Operands.{ranged_is, spelled_is};
ghost use Rattle.forms.specs.Classify.{classify_of};
ghost use Rattle.forms.specs.Effects.{touched_of, effect_of};

use texts::Text;

// An operand: kind 0 is a register (its text), 1 memory (its width, 0 where unknown; whether its address is known; the address number; the slot number, 0 for none), 2 any other. Fields of another kind are ignored.
// Kind, known and slot are numbers, no enums and no Option: any is accepted, and a kind or known out of range is refused with 4, by the clause of classify.
#[derive(Clone, Copy)]
pub struct Operand {
    pub kind: u8,
    pub text: Text,
    pub width: u16,
    pub known: u8,
    pub address: u32,
    pub slot: u32,
}

// An instruction: the operands past the count are ignored.
// Of fixed memory, with a count beside: one over 3 is accepted, and refused with 4.
#[derive(Clone, Copy)]
pub struct Instruction {
    pub operands: [Operand; 3],
    pub count: usize,
    pub mnemonic: Text,
    pub address: u64,
}

// The arithmetic that x87 performs on its stack.
#[derive(Clone, Copy)]
pub enum X87Arith {
    Add,
    Sub,
    Mul,
    Div,
}

// The value format that a memory operand carries: IEEE binary, or a two's complement integer.
#[derive(Clone, Copy)]
pub enum MemFormat {
    Float,
    Integer,
}

// How a conversion rounds.
#[derive(Clone, Copy)]
pub enum RoundingMode {
    NearestTiesEven,
    TowardZero,
}

// Where the second input of an arithmetic instruction or of a compare comes from.
#[derive(Clone, Copy)]
pub enum ArithSrc {
    Slot(u32),
    Memory { width: u16, format: MemFormat },
}

// The condition that a conditional move tests.
#[derive(Clone, Copy)]
pub enum X87Condition {
    Below,
    Equal,
    BelowOrEqual,
    Unordered,
    NotBelow,
    NotEqual,
    NotBelowOrEqual,
    NotUnordered,
}

// Operations on the top of the stack in place.
#[derive(Clone, Copy)]
pub enum UnaryOp {
    Abs,
    Chs,
    Sqrt,
    RoundToIntegral,
}

// What an instruction does to the stack. A constant's pattern stands in two words.
#[derive(Clone, Copy)]
pub enum Form {
    PushConst {
        low: u64,
        high: u64,
    },
    PushMemory {
        width: u16,
        format: MemFormat,
    },
    PushSlot(u32),
    StoreMemory {
        width: u16,
        format: MemFormat,
        pop: bool,
        rounding: RoundingMode,
    },
    StoreSlot {
        index: u32,
        pop: bool,
    },
    Arith {
        op: X87Arith,
        dst: u32,
        src: ArithSrc,
        reversed: bool,
        pop: bool,
    },
    CompareStatus {
        src: ArithSrc,
        pops: u8,
    },
    CompareFlags {
        src: u32,
        pop: bool,
    },
    ConditionalMove {
        src: u32,
        condition: X87Condition,
    },
    StoreStatus,
    Exchange(u32),
    Unary(UnaryOp),
}

// The memory widths that a family takes, by the Rust's tables.
#[derive(Clone, Copy)]
pub enum Widths {
    FloatWidths,
    FloatShort,
    IntWidths,
    IntArith,
    IntStore,
    StatusWidth,
}

// The fixed part of a store: what the destination holds, its widths, whether it pops, how it rounds.
#[derive(Clone, Copy)]
pub struct StoreSpec {
    pub format: MemFormat,
    pub widths: Widths,
    pub pop: bool,
    pub rounding: RoundingMode,
}

// Whether a compare has a memory form.
#[derive(Clone, Copy)]
pub enum MemorySource {
    Allowed,
    Forbidden,
}

// What a name stands for: the operands that it takes, and what it makes of them.
#[derive(Clone, Copy)]
pub enum Family {
    Plain(Form),
    Exchange,
    Load {
        format: MemFormat,
        widths: Widths,
    },
    Store(StoreSpec),
    StatusCompare {
        pops: u8,
        memory: MemorySource,
    },
    PairedCompare,
    FlagCompare {
        pop: bool,
    },
    StoreStatus,
    ConditionalMove(X87Condition),
    IntegerArith {
        op: X87Arith,
        reversed: bool,
    },
    IntegerCompare {
        pops: u8,
    },
    Arith {
        op: X87Arith,
        reversed: bool,
        pop: bool,
    },
}

// The one operand that a name takes: a place, a place or memory, memory, `ax` or memory.
#[derive(Clone, Copy)]
pub enum One {
    Place,
    PlaceOr(Widths),
    Memory(Widths),
    AxOr(Widths),
}

// The two operands that a name takes: anything and a place, place 0 and a place, two places.
#[derive(Clone, Copy)]
pub enum Two {
    Second,
    TopAnd,
    Places,
}

// What a name takes: whether it stands alone, and the operands that it takes, if any.
#[derive(Clone, Copy)]
pub struct Shape {
    pub alone: bool,
    pub one: Option<One>,
    pub two: Option<Two>,
}

// Why an instruction is refused: a text of it is none (3), or its count or an operand (4).
#[derive(Clone, Copy)]
pub enum BadInstruction {
    Text,
    Operands,
}

// The answer of `classify`: a form, none where the Rust declines, or the refusal.
pub type Classified = Result<Option<Form>, BadInstruction>;

// What an instruction touches beyond the registers that its operands name.
#[derive(Clone, Copy)]
pub struct Effect {
    pub defines_stack: bool,
    pub defines_status: bool,
    pub uses_stack: bool,
    pub uses_status: bool,
    pub defines_flags: bool,
    pub reads_flags: bool,
    pub writes_ax: bool,
}

// The answer of `x87_effect`, as that of `classify`.
pub type Affected = Result<Option<Effect>, BadInstruction>;

// Whether an operand's kind, and a memory operand's flag, are in range.
fn ranged(o: &Operand) -> bool
    ensures { result ≡ ranged_is o.now }
{
    if o.kind == 1 {
        o.known <= 1
    } else {
        o.kind <= 2
    }
}

// Whether a register operand's text is one.
fn spelled(o: &Operand) -> bool
    ensures { result ≡ spelled_is o.now }
{
    o.kind != 0 || o.text.is_valid()
}

// Whether every operand is in range. Two tests of one line each: one over the test would owe a closure's contract at each call.
fn all_ranged(operands: &[Operand]) -> bool
    ensures { result ≡ all ranged_is operands.now }
{
    operands.iter().all(ranged)
}

// Whether every register operand's text is one.
fn all_spelled(operands: &[Operand]) -> bool
    ensures { result ≡ all spelled_is operands.now }
{
    operands.iter().all(spelled)
}

// What an instruction does to the stack, or that it is declined, or that it is no instruction.
pub fn classify(insn: &Instruction) -> Classified
    ensures { result ≡ classify_of insn.now }
{
    let Some(operands) = insn.operands.get(..insn.count) else {
        return Err(BadInstruction::Operands);
    };
    if !all_ranged(operands) {
        return Err(BadInstruction::Operands);
    }
    if !insn.mnemonic.is_valid() || !all_spelled(operands) {
        return Err(BadInstruction::Text);
    }
    Ok(match names::family(insn.mnemonic.as_bytes()) {
        Some(family) => families::form(family, operands),
        None => None,
    })
}

// The whole stack, both defined and used.
const STACK: Effect = Effect {
    defines_stack: true,
    defines_status: false,
    uses_stack: true,
    uses_status: false,
    defines_flags: false,
    reads_flags: false,
    writes_ax: false,
};

// What a form touches, its first operand being a register or not: a status store writes `ax` where it is one.
fn touched(form: Form, register: bool) -> Effect
    ensures { result ≡ touched_of form register }
{
    match form {
        Form::CompareStatus { .. } => Effect {
            defines_status: true,
            ..STACK
        },
        Form::CompareFlags { .. } => Effect {
            defines_flags: true,
            ..STACK
        },
        Form::ConditionalMove { .. } => Effect {
            reads_flags: true,
            ..STACK
        },
        Form::StoreStatus => Effect {
            defines_stack: false,
            uses_stack: false,
            uses_status: true,
            writes_ax: register,
            ..STACK
        },
        Form::PushConst { .. }
        | Form::PushMemory { .. }
        | Form::PushSlot(_)
        | Form::StoreMemory { .. }
        | Form::StoreSlot { .. }
        | Form::Arith { .. }
        | Form::Exchange(_)
        | Form::Unary(_) => STACK,
    }
}

// What an instruction touches, or as `classify` that it is declined or no instruction.
pub fn x87_effect(insn: &Instruction) -> Affected
    ensures { result ≡ effect_of insn.now }
{
    let Some(form) = classify(insn)? else {
        return Ok(None);
    };
    Ok(Some(touched(form, insn.operands[0].kind == 0)))
}
