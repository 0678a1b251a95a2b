// The table of the 56 names, and the reading of a mnemonic by it.
ghost use Rattle.std.specs.Prelude.{◌≡◌, option_map};
ghost use Rattle.forms.specs.Names.{family_of};
ghost use Rattle.forms.specs.Shapes.{moved_one, compared_one, arith_one, shape_of};
ghost use Rattle.forms.specs.Inside.Keys.{key_of, family_by};

use super::{
    Family, Form, MemFormat, MemorySource, One, RoundingMode, Shape, StoreSpec, Two, UnaryOp,
    Widths, X87Arith, X87Condition,
};

// A name, by its letters with the first one in the low byte, and what it stands for.
#[derive(Clone, Copy)]
struct Name {
    key: u64,
    family: Family,
}

#[rattlefmt::skip]
static NAMES: [Name; 56] = [
    Name { key: 0x0000000031646c66, family: Family::Plain(Form::PushConst { low: 0x8000_0000_0000_0000, high: 0x1fff }) }, // fld1
    Name { key: 0x000000007a646c66, family: Family::Plain(Form::PushConst { low: 0, high: 0 }) }, // fldz
    Name { key: 0x0000000073626166, family: Family::Plain(Form::Unary(UnaryOp::Abs)) }, // fabs
    Name { key: 0x0000000073686366, family: Family::Plain(Form::Unary(UnaryOp::Chs)) }, // fchs
    Name { key: 0x0000007472717366, family: Family::Plain(Form::Unary(UnaryOp::Sqrt)) }, // fsqrt
    Name { key: 0x00746e69646e7266, family: Family::Plain(Form::Unary(UnaryOp::RoundToIntegral)) }, // frndint
    Name { key: 0x0000000068637866, family: Family::Exchange }, // fxch
    Name { key: 0x0000000000646c66, family: Family::Load { format: MemFormat::Float, widths: Widths::FloatWidths } }, // fld
    Name { key: 0x00000000646c6966, family: Family::Load { format: MemFormat::Integer, widths: Widths::IntWidths } }, // fild
    Name { key: 0x0000000000747366, family: Family::Store(StoreSpec { format: MemFormat::Float, widths: Widths::FloatShort, pop: false, rounding: RoundingMode::NearestTiesEven }) }, // fst
    Name { key: 0x0000000070747366, family: Family::Store(StoreSpec { format: MemFormat::Float, widths: Widths::FloatWidths, pop: true, rounding: RoundingMode::NearestTiesEven }) }, // fstp
    Name { key: 0x0000000074736966, family: Family::Store(StoreSpec { format: MemFormat::Integer, widths: Widths::IntStore, pop: false, rounding: RoundingMode::NearestTiesEven }) }, // fist
    Name { key: 0x0000007074736966, family: Family::Store(StoreSpec { format: MemFormat::Integer, widths: Widths::IntWidths, pop: true, rounding: RoundingMode::NearestTiesEven }) }, // fistp
    Name { key: 0x0000707474736966, family: Family::Store(StoreSpec { format: MemFormat::Integer, widths: Widths::IntWidths, pop: true, rounding: RoundingMode::TowardZero }) }, // fisttp
    Name { key: 0x000000006d6f6366, family: Family::StatusCompare { pops: 0, memory: MemorySource::Allowed } }, // fcom
    Name { key: 0x000000706d6f6366, family: Family::StatusCompare { pops: 1, memory: MemorySource::Allowed } }, // fcomp
    Name { key: 0x0000006d6f637566, family: Family::StatusCompare { pops: 0, memory: MemorySource::Forbidden } }, // fucom
    Name { key: 0x0000706d6f637566, family: Family::StatusCompare { pops: 1, memory: MemorySource::Forbidden } }, // fucomp
    Name { key: 0x000070706d6f6366, family: Family::PairedCompare }, // fcompp
    Name { key: 0x0070706d6f637566, family: Family::PairedCompare }, // fucompp
    Name { key: 0x000000696d6f6366, family: Family::FlagCompare { pop: false } }, // fcomi
    Name { key: 0x0000696d6f637566, family: Family::FlagCompare { pop: false } }, // fucomi
    Name { key: 0x000069706d6f6366, family: Family::FlagCompare { pop: true } }, // fcompi
    Name { key: 0x0069706d6f637566, family: Family::FlagCompare { pop: true } }, // fucompi
    Name { key: 0x000070696d6f6366, family: Family::FlagCompare { pop: true } }, // fcomip
    Name { key: 0x0070696d6f637566, family: Family::FlagCompare { pop: true } }, // fucomip
    Name { key: 0x0000777374736e66, family: Family::StoreStatus }, // fnstsw
    Name { key: 0x0000007773747366, family: Family::StoreStatus }, // fstsw
    Name { key: 0x000062766f6d6366, family: Family::ConditionalMove(X87Condition::Below) }, // fcmovb
    Name { key: 0x000065766f6d6366, family: Family::ConditionalMove(X87Condition::Equal) }, // fcmove
    Name { key: 0x006562766f6d6366, family: Family::ConditionalMove(X87Condition::BelowOrEqual) }, // fcmovbe
    Name { key: 0x000075766f6d6366, family: Family::ConditionalMove(X87Condition::Unordered) }, // fcmovu
    Name { key: 0x00626e766f6d6366, family: Family::ConditionalMove(X87Condition::NotBelow) }, // fcmovnb
    Name { key: 0x00656e766f6d6366, family: Family::ConditionalMove(X87Condition::NotEqual) }, // fcmovne
    Name { key: 0x65626e766f6d6366, family: Family::ConditionalMove(X87Condition::NotBelowOrEqual) }, // fcmovnbe
    Name { key: 0x00756e766f6d6366, family: Family::ConditionalMove(X87Condition::NotUnordered) }, // fcmovnu
    Name { key: 0x0000006464616966, family: Family::IntegerArith { op: X87Arith::Add, reversed: false } }, // fiadd
    Name { key: 0x0000006c756d6966, family: Family::IntegerArith { op: X87Arith::Mul, reversed: false } }, // fimul
    Name { key: 0x0000006275736966, family: Family::IntegerArith { op: X87Arith::Sub, reversed: false } }, // fisub
    Name { key: 0x0000726275736966, family: Family::IntegerArith { op: X87Arith::Sub, reversed: true } }, // fisubr
    Name { key: 0x0000007669646966, family: Family::IntegerArith { op: X87Arith::Div, reversed: false } }, // fidiv
    Name { key: 0x0000727669646966, family: Family::IntegerArith { op: X87Arith::Div, reversed: true } }, // fidivr
    Name { key: 0x0000006d6f636966, family: Family::IntegerCompare { pops: 0 } }, // ficom
    Name { key: 0x0000706d6f636966, family: Family::IntegerCompare { pops: 1 } }, // ficomp
    Name { key: 0x0000000064646166, family: Family::Arith { op: X87Arith::Add, reversed: false, pop: false } }, // fadd
    Name { key: 0x000000006c756d66, family: Family::Arith { op: X87Arith::Mul, reversed: false, pop: false } }, // fmul
    Name { key: 0x0000000062757366, family: Family::Arith { op: X87Arith::Sub, reversed: false, pop: false } }, // fsub
    Name { key: 0x0000007262757366, family: Family::Arith { op: X87Arith::Sub, reversed: true, pop: false } }, // fsubr
    Name { key: 0x0000000076696466, family: Family::Arith { op: X87Arith::Div, reversed: false, pop: false } }, // fdiv
    Name { key: 0x0000007276696466, family: Family::Arith { op: X87Arith::Div, reversed: true, pop: false } }, // fdivr
    Name { key: 0x0000007064646166, family: Family::Arith { op: X87Arith::Add, reversed: false, pop: true } }, // faddp
    Name { key: 0x000000706c756d66, family: Family::Arith { op: X87Arith::Mul, reversed: false, pop: true } }, // fmulp
    Name { key: 0x0000007062757366, family: Family::Arith { op: X87Arith::Sub, reversed: false, pop: true } }, // fsubp
    Name { key: 0x0000707262757366, family: Family::Arith { op: X87Arith::Sub, reversed: true, pop: true } }, // fsubrp
    Name { key: 0x0000007076696466, family: Family::Arith { op: X87Arith::Div, reversed: false, pop: true } }, // fdivp
    Name { key: 0x0000707276696466, family: Family::Arith { op: X87Arith::Div, reversed: true, pop: true } }, // fdivrp
];

// What stands beside the key that is this one.
fn family_in(names: &[Name], key: u64) -> Option<Family>
    ensures { result ≡ family_by key names.now }
{
    let name = names.iter().find(|name| name.key == key)?;
    Some(name.family)
}

// The letters of a text in lower case as one number, its first letter in the low byte; 0 where it has over eight bytes or a zero byte, as no name has.
fn key(s: &[u8]) -> u64
    ensures { result ≡ key_of s.now }
{
    if 8 < s.len() {
        return 0;
    }
    let mut n = 0;
    for letter in s.iter().rev() {
        let b = texts::lower(*letter);
        if b == 0 {
            return 0;
        }
        n = n * 256 + u64::from(b);
    }
    n
}

// What a mnemonic stands for.
pub(crate) fn family(s: &[u8]) -> Option<Family>
    ensures { result ≡ family_of s.now }
{
    family_in(&NAMES, key(texts::trim(s)))
}

// The one operand of a load or a store: a place is loaded and stored to as a float alone.
fn moved(format: MemFormat, widths: Widths) -> One
    ensures { result ≡ moved_one format widths }
{
    match format {
        MemFormat::Float => One::PlaceOr(widths),
        MemFormat::Integer => One::Memory(widths),
    }
}

// The one operand of a compare.
fn compared(memory: MemorySource) -> One
    ensures { result ≡ compared_one memory }
{
    match memory {
        MemorySource::Allowed => One::PlaceOr(Widths::FloatShort),
        MemorySource::Forbidden => One::Place,
    }
}

// The one operand of an arithmetic: there is no popping form with memory.
fn popping(pop: bool) -> One
    ensures { result ≡ arith_one pop }
{
    if pop {
        One::Place
    } else {
        One::PlaceOr(Widths::FloatShort)
    }
}

// What the names of a family take.
fn shape_of(family: Family) -> Shape
    ensures { result ≡ shape_of family }
{
    let (alone, one, two) = match family {
        Family::Plain(_) => (true, None, None),
        Family::Exchange => (true, Some(One::Place), None),
        Family::Load { format, widths } => (false, Some(moved(format, widths)), None),
        Family::Store(spec) => (false, Some(moved(spec.format, spec.widths)), None),
        Family::StatusCompare { memory, .. } => (true, Some(compared(memory)), None),
        Family::PairedCompare => (true, None, None),
        Family::FlagCompare { .. } => (false, Some(One::Place), Some(Two::Second)),
        Family::StoreStatus => (false, Some(One::AxOr(Widths::StatusWidth)), None),
        Family::ConditionalMove(_) => (false, None, Some(Two::TopAnd)),
        Family::IntegerArith { .. } => (false, Some(One::Memory(Widths::IntArith)), None),
        Family::IntegerCompare { .. } => (false, Some(One::Memory(Widths::IntArith)), None),
        Family::Arith { pop, .. } => (pop, Some(popping(pop)), Some(Two::Places)),
    };
    Shape { alone, one, two }
}

// What a mnemonic takes.
pub fn shape(s: &[u8]) -> Option<Shape>
    ensures { result ≡ option_map shape_of (family_of s.now) }
{
    family(s).map(shape_of)
}
