// What each form does to the stack and the lists: arithmetic, compares, moves, pushes, and the decline.
#![tactic(auto)]

ghost use Rattle.std.specs.Prelude.{◌≡◌};
ghost use Rattle.lists.specs.Steps.{Does};
ghost use Rattle.moves.specs.Moves.{dropped_times, dropped_if, ordered_of, x87_arith_of, x87_compare_status_of, set_flag_of, x87_compare_flags_of, x87_conditional_move_of, x87_unary_of, store_slot_of};
ghost use Rattle.moves.specs.Pushes.{decline_x87_of, land_of, push_const_of, push_slot_of, push_memory_of, pushed_number};

use exprs::{CF, OF, PF, SF, ZF};
use forms::{ArithSrc, MemFormat, UnaryOp, X87Arith, X87Condition};
use lists::{LiftCtx, SLOT_BITS, State, X87Error};
use memory::Site;

// The kinds of statements (the manual, section 4). Numbers, since statement is public and takes any.
const SET_STATUS: u64 = 3;

const SET_FLAG: u64 = 4;

const DECLINE: u64 = 6;

fn drop_times(s: &mut State, pops: u8)
    ensures { s.new ≡ dropped_times pops s.old }
{
    for _ in 0..pops {
        s.drop_top();
    }
}

fn drop_if(s: &mut State, pop: bool)
    ensures { s.new ≡ dropped_if pop s.old }
{
    if pop {
        s.drop_top();
    }
}

// The operation on both inputs; `reversed` puts the second first.
fn ordered(ctx: &mut LiftCtx, op: X87Arith, a: u32, b: u32, reversed: bool) -> u32
    ensures { Does (ordered_of ctx.old.state op a b reversed) ctx.old ctx.new result }
{
    if reversed {
        exprs::extended_arith(ctx, op, b, a)
    } else {
        exprs::extended_arith(ctx, op, a, b)
    }
}

pub fn x87_arith(
    ctx: &mut LiftCtx,
    site: Site,
    op: X87Arith,
    dst: u32,
    src: ArithSrc,
    reversed: bool,
    pop: bool,
)
    ensures { Does (x87_arith_of ctx.old.state site op dst src reversed pop) ctx.old ctx.new 0 }
{
    let a = ctx.read(dst);
    let b = memory::source(ctx, site, src);
    let v = ordered(ctx, op, a, b, reversed);
    ctx.write(dst, v);
    drop_if(&mut ctx.state, pop);
}

// The outcome goes into the status word's condition codes.
pub fn x87_compare_status(ctx: &mut LiftCtx, site: Site, src: ArithSrc, pops: u8)
    ensures { Does (x87_compare_status_of ctx.old.state site src pops) ctx.old ctx.new 0 }
{
    let top = ctx.read(0);
    let a = exprs::as_extended(ctx, top);
    let other = memory::source(ctx, site, src);
    let b = exprs::as_extended(ctx, other);
    let unordered = exprs::unordered(ctx, a, b);
    let equal = exprs::feq(ctx, a, b);
    let less = exprs::flt(ctx, a, b);
    let c0 = exprs::bool_or(ctx, unordered, less);
    let c3 = exprs::bool_or(ctx, unordered, equal);
    let status = exprs::x87_status_word(ctx, c0, unordered, c3);
    ctx.statement(SET_STATUS, status as u64, 0, 0);
    drop_times(&mut ctx.state, pops);
}

fn set_flag(ctx: &mut LiftCtx, flag: u32, node: u32)
    ensures { Does (set_flag_of ctx.old.state flag node) ctx.old ctx.new 0 }
{
    ctx.statement(SET_FLAG, flag as u64, node as u64, 0);
}

// The outcome goes into the flags.
pub fn x87_compare_flags(ctx: &mut LiftCtx, src: u32, pop: bool)
    ensures { Does (x87_compare_flags_of ctx.old.state src pop) ctx.old ctx.new 0 }
{
    let top = ctx.read(0);
    let a = exprs::as_extended(ctx, top);
    let other = ctx.read(src);
    let b = exprs::as_extended(ctx, other);
    let unordered = exprs::unordered(ctx, a, b);
    set_flag(ctx, PF, unordered);
    let equal = exprs::feq(ctx, a, b);
    let zf = exprs::bool_or(ctx, unordered, equal);
    set_flag(ctx, ZF, zf);
    let less = exprs::flt(ctx, a, b);
    let cf = exprs::bool_or(ctx, unordered, less);
    set_flag(ctx, CF, cf);
    let of = exprs::konst(ctx, 0, 1);
    set_flag(ctx, OF, of);
    let sf = exprs::konst(ctx, 0, 1);
    set_flag(ctx, SF, sf);
    drop_if(&mut ctx.state, pop);
}

// A select between two places.
pub fn x87_conditional_move(ctx: &mut LiftCtx, src: u32, condition: X87Condition)
    ensures { Does (x87_conditional_move_of ctx.old.state src condition) ctx.old ctx.new 0 }
{
    let taken = ctx.read(src);
    let kept = ctx.read(0);
    let holds = exprs::predicate(ctx, condition);
    let v = exprs::ite(ctx, holds, taken, kept);
    ctx.write(0, v);
}

pub fn x87_unary(ctx: &mut LiftCtx, op: UnaryOp)
    ensures { Does (x87_unary_of ctx.old.state op) ctx.old ctx.new 0 }
{
    let top = ctx.read(0);
    let v = exprs::unary(ctx, op, top);
    ctx.write(0, v);
}

// The top into another place.
pub fn store_slot(ctx: &mut LiftCtx, index: u32, pop: bool)
    ensures { Does (store_slot_of ctx.old.state index pop) ctx.old ctx.new 0 }
{
    let value = ctx.read(0);
    ctx.write(index, value);
    drop_if(&mut ctx.state, pop);
}

// A decline forgets the stack and says why, 1 or 2, where, and with which detail. Why is a number, since this is public and takes any.
pub fn decline_x87(ctx: &mut LiftCtx, why: u32, address: u64, detail: u32)
    ensures { Does (decline_x87_of ctx.old.state why address detail) ctx.old ctx.new why }
{
    ctx.state.havoc();
    ctx.statement(DECLINE, why as u64, address, detail as u64);
}

// A push, which declines where it overflows.
fn land(ctx: &mut LiftCtx, value: u32, address: u64) -> Result<(), X87Error>
    ensures { Does (land_of ctx.old.state value address) ctx.old ctx.new (pushed_number result) }
{
    let pushed = ctx.state.push(value);
    if pushed.is_err() {
        decline_x87(ctx, 2, address, 0);
    }
    pushed
}

pub fn push_const(ctx: &mut LiftCtx, site: Site, low: u64, high: u64) -> Result<(), X87Error>
    ensures { Does (push_const_of ctx.old.state site low high) ctx.old ctx.new (pushed_number result) }
{
    let value = ctx.constant(low, high, SLOT_BITS);
    land(ctx, value, site.address)
}

pub fn push_slot(ctx: &mut LiftCtx, site: Site, index: u32) -> Result<(), X87Error>
    ensures { Does (push_slot_of ctx.old.state site index) ctx.old ctx.new (pushed_number result) }
{
    let value = ctx.read(index);
    land(ctx, value, site.address)
}

pub fn push_memory(
    ctx: &mut LiftCtx,
    site: Site,
    width: u16,
    format: MemFormat,
) -> Result<(), X87Error>
    ensures { Does (push_memory_of ctx.old.state site width format) ctx.old ctx.new (pushed_number result) }
{
    let value = memory::x87_memory_read(ctx, site, width, format);
    land(ctx, value, site.address)
}
