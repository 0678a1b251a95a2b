// The expressions of x87 lifting: a node for each call of the Rust's `Expr` constructors, and what is built of them without the stack.
// Each function adds to the nodes, and answers the number of the node that it built.
// A constructor is a function by its name: one over an enum of them would name each kind twice, in its match and at each call.
// A width and a format stay two parameters: they are two fields of a form, which definitions and theorems name.
#![tactic(auto)]

ghost use Rattle.std.specs.Prelude.{◌≡◌};
ghost use Rattle.lists.specs.Steps.{Does};
ghost use Rattle.forms.specs.Numbers.{rounding_number};
ghost use Rattle.exprs.specs.Nodes.{slot_var_of, fsw_of, flag_of, konst_of, bv_and_of, bv_xor_of, eq_of, bool_and_of, bool_or_of, bool_not_of, ite_of, extract_of, concat_of, feq_of, flt_of, fisnan_of, fsqrt_of, fround_to_integral_of, bv_to_fp_of, fp_to_ieee_bv_of, fp_to_sbv_of, sbv_to_fp_of, fp_to_fp_of};
ghost use Rattle.exprs.specs.Formats.{format_of, is_image, arith_kind_of};
ghost use Rattle.exprs.specs.Image.{extended_from_memory_of, extended_to_memory_of};
ghost use Rattle.exprs.specs.Slots.{as_extended_of, from_extended_of, to_slot_of, narrowed_of, from_slot_of};
ghost use Rattle.exprs.specs.Operations.{extended_arith_of, unary_of, unordered_of, flag_is_of, predicate_of};
ghost use Rattle.exprs.specs.Status.{x87_status_word_of};

use forms::{MemFormat, RoundingMode, UnaryOp, X87Arith, X87Condition};
use lists::{LiftCtx, SLOT_BITS, STATUS_BITS};

// A format is exponent bits times 256 plus significand bits.
const SINGLE: u32 = 8 * 256 + 24;

const DOUBLE: u32 = 11 * 256 + 53;

const EXTENDED: u32 = 15 * 256 + 64;

// The rounding that x87 operations have at reset.
const NEAREST: u32 = 0;

// The flags by name; a condition reads the first three. Numbers, since flag is public and takes any.
pub const CF: u32 = 0;

pub const PF: u32 = 1;

pub const ZF: u32 = 2;

pub const OF: u32 = 3;

pub const SF: u32 = 4;

// A named stack slot.
pub fn slot_var(ctx: &mut LiftCtx, number: u32, bits: u32) -> u32
    ensures { Does (slot_var_of ctx.old.state number bits) ctx.old ctx.new result }
{
    ctx.node(3, number, bits, 0)
}

// The status word.
pub fn fsw(ctx: &mut LiftCtx) -> u32
    ensures { Does (fsw_of ctx.old.state) ctx.old ctx.new result }
{
    ctx.node(4, 0, 0, 0)
}

// A flag by its number.
pub fn flag(ctx: &mut LiftCtx, number: u32) -> u32
    ensures { Does (flag_of ctx.old.state number) ctx.old ctx.new result }
{
    ctx.node(5, number, 0, 0)
}

// A constant of one word.
pub fn konst(ctx: &mut LiftCtx, value: u64, bits: u32) -> u32
    ensures { Does (konst_of ctx.old.state value bits) ctx.old ctx.new result }
{
    ctx.constant(value, 0, bits)
}

pub fn bv_and(ctx: &mut LiftCtx, a: u32, b: u32) -> u32
    ensures { Does (bv_and_of ctx.old.state a b) ctx.old ctx.new result }
{
    ctx.node(7, a, b, 0)
}

pub fn bv_xor(ctx: &mut LiftCtx, a: u32, b: u32) -> u32
    ensures { Does (bv_xor_of ctx.old.state a b) ctx.old ctx.new result }
{
    ctx.node(8, a, b, 0)
}

pub fn eq(ctx: &mut LiftCtx, a: u32, b: u32) -> u32
    ensures { Does (eq_of ctx.old.state a b) ctx.old ctx.new result }
{
    ctx.node(9, a, b, 0)
}

pub fn bool_and(ctx: &mut LiftCtx, a: u32, b: u32) -> u32
    ensures { Does (bool_and_of ctx.old.state a b) ctx.old ctx.new result }
{
    ctx.node(10, a, b, 0)
}

pub fn bool_or(ctx: &mut LiftCtx, a: u32, b: u32) -> u32
    ensures { Does (bool_or_of ctx.old.state a b) ctx.old ctx.new result }
{
    ctx.node(11, a, b, 0)
}

pub fn bool_not(ctx: &mut LiftCtx, a: u32) -> u32
    ensures { Does (bool_not_of ctx.old.state a) ctx.old ctx.new result }
{
    ctx.node(12, a, 0, 0)
}

pub fn ite(ctx: &mut LiftCtx, condition: u32, a: u32, b: u32) -> u32
    ensures { Does (ite_of ctx.old.state condition a b) ctx.old ctx.new result }
{
    ctx.node(13, condition, a, b)
}

pub fn extract(ctx: &mut LiftCtx, x: u32, hi: u32, lo: u32) -> u32
    ensures { Does (extract_of ctx.old.state x hi lo) ctx.old ctx.new result }
{
    ctx.node(14, x, hi, lo)
}

pub fn concat(ctx: &mut LiftCtx, high: u32, low: u32) -> u32
    ensures { Does (concat_of ctx.old.state high low) ctx.old ctx.new result }
{
    ctx.node(15, high, low, 0)
}

pub fn feq(ctx: &mut LiftCtx, a: u32, b: u32) -> u32
    ensures { Does (feq_of ctx.old.state a b) ctx.old ctx.new result }
{
    ctx.node(20, a, b, 0)
}

pub fn flt(ctx: &mut LiftCtx, a: u32, b: u32) -> u32
    ensures { Does (flt_of ctx.old.state a b) ctx.old ctx.new result }
{
    ctx.node(21, a, b, 0)
}

pub fn fisnan(ctx: &mut LiftCtx, a: u32) -> u32
    ensures { Does (fisnan_of ctx.old.state a) ctx.old ctx.new result }
{
    ctx.node(22, a, 0, 0)
}

pub fn fsqrt(ctx: &mut LiftCtx, a: u32, rounding: u32) -> u32
    ensures { Does (fsqrt_of ctx.old.state a rounding) ctx.old ctx.new result }
{
    ctx.node(23, a, rounding, 0)
}

pub fn fround_to_integral(ctx: &mut LiftCtx, a: u32, rounding: u32) -> u32
    ensures { Does (fround_to_integral_of ctx.old.state a rounding) ctx.old ctx.new result }
{
    ctx.node(24, a, rounding, 0)
}

pub fn bv_to_fp(ctx: &mut LiftCtx, x: u32, format: u32) -> u32
    ensures { Does (bv_to_fp_of ctx.old.state x format) ctx.old ctx.new result }
{
    ctx.node(25, x, 0, format)
}

pub fn fp_to_ieee_bv(ctx: &mut LiftCtx, x: u32) -> u32
    ensures { Does (fp_to_ieee_bv_of ctx.old.state x) ctx.old ctx.new result }
{
    ctx.node(26, x, 0, 0)
}

pub fn fp_to_sbv(ctx: &mut LiftCtx, x: u32, rounding: u32, bits: u32) -> u32
    ensures { Does (fp_to_sbv_of ctx.old.state x rounding bits) ctx.old ctx.new result }
{
    ctx.node(27, x, rounding, bits)
}

pub fn sbv_to_fp(ctx: &mut LiftCtx, x: u32, rounding: u32, format: u32) -> u32
    ensures { Does (sbv_to_fp_of ctx.old.state x rounding format) ctx.old ctx.new result }
{
    ctx.node(28, x, rounding, format)
}

pub fn fp_to_fp(ctx: &mut LiftCtx, x: u32, rounding: u32, format: u32) -> u32
    ensures { Does (fp_to_fp_of ctx.old.state x rounding format) ctx.old ctx.new result }
{
    ctx.node(29, x, rounding, format)
}

// The number of a rounding.
fn rounding_number(rounding: RoundingMode) -> u32
    ensures { result ≡ rounding_number rounding }
{
    rounding as u32
}

// The format of a float of 32 or of 64 bits.
fn format_number(width: u32) -> u32
    ensures { result ≡ format_of width }
{
    if width == 32 {
        SINGLE
    } else if width == 64 {
        DOUBLE
    } else {
        EXTENDED
    }
}

// Whether memory holds the 80-bit image.
pub fn is_image(width: u32, format: MemFormat) -> bool
    ensures { result ≡ is_image width format }
{
    match format {
        MemFormat::Float => width == 80,
        MemFormat::Integer => false,
    }
}

// The kind of an operation's node: FAdd, FSub, FMul, FDiv.
fn arith_kind(op: X87Arith) -> u32
    ensures { result ≡ arith_kind_of op }
{
    16 + op as u32
}

// A slot's pattern as a float.
pub fn as_extended(ctx: &mut LiftCtx, x: u32) -> u32
    ensures { Does (as_extended_of ctx.old.state x) ctx.old ctx.new result }
{
    bv_to_fp(ctx, x, EXTENDED)
}

// A float as a slot's pattern.
pub fn from_extended(ctx: &mut LiftCtx, x: u32) -> u32
    ensures { Does (from_extended_of ctx.old.state x) ctx.old ctx.new result }
{
    fp_to_ieee_bv(ctx, x)
}

// One operation at the extended format.
pub fn extended_arith(ctx: &mut LiftCtx, op: X87Arith, lhs: u32, rhs: u32) -> u32
    ensures { Does (extended_arith_of ctx.old.state op lhs rhs) ctx.old ctx.new result }
{
    let a = as_extended(ctx, lhs);
    let b = as_extended(ctx, rhs);
    let x = ctx.node(arith_kind(op), a, b, NEAREST);
    from_extended(ctx, x)
}

// The pattern of an image, or `free` where its integer bit is not what its exponent says.
pub fn extended_from_memory(ctx: &mut LiftCtx, image: u32, free: u32) -> u32
    ensures { Does (extended_from_memory_of ctx.old.state image free) ctx.old ctx.new result }
{
    let sign = extract(ctx, image, 79, 79);
    let exponent = extract(ctx, image, 78, 64);
    let integer = extract(ctx, image, 63, 63);
    let fraction = extract(ctx, image, 62, 0);
    let zero = konst(ctx, 0, 15);
    let zero_exponent = eq(ctx, exponent, zero);
    let one = konst(ctx, 1, 1);
    let leading = eq(ctx, integer, one);
    let not_leading = bool_not(ctx, leading);
    let denormal = bool_and(ctx, zero_exponent, not_leading);
    let not_zero = bool_not(ctx, zero_exponent);
    let normal = bool_and(ctx, not_zero, leading);
    let canonical = bool_or(ctx, denormal, normal);
    let low = concat(ctx, exponent, fraction);
    let pattern = concat(ctx, sign, low);
    ite(ctx, canonical, pattern, free)
}

// The image of a pattern, with its integer bit.
pub fn extended_to_memory(ctx: &mut LiftCtx, pattern: u32) -> u32
    ensures { Does (extended_to_memory_of ctx.old.state pattern) ctx.old ctx.new result }
{
    let sign = extract(ctx, pattern, 78, 78);
    let exponent = extract(ctx, pattern, 77, 63);
    let fraction = extract(ctx, pattern, 62, 0);
    let zero = konst(ctx, 0, 15);
    let zero_exponent = eq(ctx, exponent, zero);
    let zero_bit = konst(ctx, 0, 1);
    let one_bit = konst(ctx, 1, 1);
    let integer = ite(ctx, zero_exponent, zero_bit, one_bit);
    let significand = concat(ctx, integer, fraction);
    let low = concat(ctx, exponent, significand);
    concat(ctx, sign, low)
}

// What memory holds, as a slot's pattern: all but the 80-bit image.
pub fn to_slot(ctx: &mut LiftCtx, raw: u32, width: u32, format: MemFormat) -> u32
    ensures { Does (to_slot_of ctx.old.state raw width format) ctx.old ctx.new result }
{
    match format {
        MemFormat::Float => {
            let x = bv_to_fp(ctx, raw, format_number(width));
            let y = fp_to_fp(ctx, x, NEAREST, EXTENDED);
            from_extended(ctx, y)
        }
        MemFormat::Integer => {
            let x = sbv_to_fp(ctx, raw, NEAREST, EXTENDED);
            from_extended(ctx, x)
        }
    }
}

// A slot's pattern rounded to what memory holds: all but the 80-bit image.
fn narrowed(
    ctx: &mut LiftCtx,
    value: u32,
    width: u32,
    format: MemFormat,
    rounding: RoundingMode,
) -> u32
    ensures { Does (narrowed_of ctx.old.state value width format rounding) ctx.old ctx.new result }
{
    let x = as_extended(ctx, value);
    match format {
        MemFormat::Float => {
            let y = fp_to_fp(ctx, x, rounding_number(rounding), format_number(width));
            from_extended(ctx, y)
        }
        MemFormat::Integer => fp_to_sbv(ctx, x, rounding_number(rounding), width),
    }
}

// A slot's pattern as what a memory destination stores, rounded once.
pub fn from_slot(
    ctx: &mut LiftCtx,
    value: u32,
    width: u32,
    format: MemFormat,
    rounding: RoundingMode,
) -> u32
    ensures { Does (from_slot_of ctx.old.state value width format rounding) ctx.old ctx.new result }
{
    if is_image(width, format) {
        return extended_to_memory(ctx, value);
    }
    narrowed(ctx, value, width, format, rounding)
}

// A unary operation on a slot's pattern: `fabs` keeps all bits but the sign, `fchs` flips it, the others compute on the float.
pub fn unary(ctx: &mut LiftCtx, op: UnaryOp, top: u32) -> u32
    ensures { Does (unary_of ctx.old.state op top) ctx.old ctx.new result }
{
    match op {
        UnaryOp::Abs => {
            let magnitude = ctx.constant(0xffff_ffff_ffff_ffff, 0x3fff, SLOT_BITS);
            bv_and(ctx, top, magnitude)
        }
        UnaryOp::Chs => {
            let sign = ctx.constant(0, 0x4000, SLOT_BITS);
            bv_xor(ctx, top, sign)
        }
        UnaryOp::Sqrt => {
            let x = as_extended(ctx, top);
            let y = fsqrt(ctx, x, NEAREST);
            from_extended(ctx, y)
        }
        UnaryOp::RoundToIntegral => {
            let x = as_extended(ctx, top);
            let y = fround_to_integral(ctx, x, NEAREST);
            from_extended(ctx, y)
        }
    }
}

// Whether either of two floats is no number.
pub fn unordered(ctx: &mut LiftCtx, a: u32, b: u32) -> u32
    ensures { Does (unordered_of ctx.old.state a b) ctx.old ctx.new result }
{
    let x = fisnan(ctx, a);
    let y = fisnan(ctx, b);
    bool_or(ctx, x, y)
}

// A flag is 1, or 0.
fn flag_is(ctx: &mut LiftCtx, number: u32, value: u64) -> u32
    ensures { Does (flag_is_of ctx.old.state number value) ctx.old ctx.new result }
{
    let f = flag(ctx, number);
    let k = konst(ctx, value, 1);
    eq(ctx, f, k)
}

// The condition of a move, over the flags.
pub fn predicate(ctx: &mut LiftCtx, condition: X87Condition) -> u32
    ensures { Does (predicate_of ctx.old.state condition) ctx.old ctx.new result }
{
    match condition {
        X87Condition::Below => flag_is(ctx, CF, 1),
        X87Condition::Equal => flag_is(ctx, ZF, 1),
        X87Condition::BelowOrEqual => {
            let below = flag_is(ctx, CF, 1);
            let equal = flag_is(ctx, ZF, 1);
            bool_or(ctx, below, equal)
        }
        X87Condition::Unordered => flag_is(ctx, PF, 1),
        X87Condition::NotBelow => flag_is(ctx, CF, 0),
        X87Condition::NotEqual => flag_is(ctx, ZF, 0),
        X87Condition::NotBelowOrEqual => {
            let not_below = flag_is(ctx, CF, 0);
            let not_equal = flag_is(ctx, ZF, 0);
            bool_and(ctx, not_below, not_equal)
        }
        X87Condition::NotUnordered => flag_is(ctx, PF, 0),
    }
}

// The status word around the three condition codes; what no compare defines is free, and C1 is 0.
pub fn x87_status_word(ctx: &mut LiftCtx, c0: u32, c2: u32, c3: u32) -> u32
    ensures { Does (x87_status_word_of ctx.old.state c0 c2 c3) ctx.old ctx.new result }
{
    let free = ctx.fresh(STATUS_BITS);
    let busy = extract(ctx, free, 15, 15);
    let top = extract(ctx, free, 13, 11);
    let c1 = konst(ctx, 0, 1);
    let exceptions = extract(ctx, free, 7, 0);
    let from_c0 = concat(ctx, c0, exceptions);
    let from_c1 = concat(ctx, c1, from_c0);
    let from_c2 = concat(ctx, c2, from_c1);
    let from_top = concat(ctx, top, from_c2);
    let from_c3 = concat(ctx, c3, from_top);
    concat(ctx, busy, from_c3)
}
