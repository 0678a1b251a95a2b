// Loads and stores of an instruction's memory operand, and its second input.
#![tactic(auto)]

ghost use Rattle.std.specs.Prelude.{◌≡◌};
ghost use Rattle.lists.specs.Steps.{Does};
ghost use Rattle.memory.specs.Site.{site_of};
ghost use Rattle.memory.specs.Memory.{variable_of, read_operand_lowered_of, image_read_of, converted_of, x87_memory_read_of, source_of, write_dst_of, top_of, x87_store_memory_of, x87_store_status_of};

use forms::{ArithSrc, Instruction, MemFormat, RoundingMode};
use lists::{LiftCtx, SLOT_BITS, STATUS_BITS};

// The kinds of statements (the manual, section 4). Numbers, since statement is public and takes any.
const LOAD: u64 = 1;

const STORE: u64 = 2;

const SET_AX: u64 = 5;

// What a lift looks at in an instruction beyond its form: its address, the address and slot numbers of its first operand, and
// whether that operand is a register.
#[derive(Clone, Copy)]
pub struct Site {
    pub address: u64,
    pub memory: u32,
    pub slot: u32,
    pub register: bool,
}

impl Site {
    pub fn of(insn: &Instruction) -> Site
        ensures { result ≡ site_of insn.now }
    {
        let first = &insn.operands[0];
        Site {
            address: insn.address,
            memory: first.address,
            slot: first.slot,
            register: first.kind == 0,
        }
    }
}

// The variable that a load sets: the named slot, or without a slot number the next temporary.
fn variable(ctx: &mut LiftCtx, slot: u32, bits: u32) -> u32
    ensures { Does (variable_of ctx.old.state slot bits) ctx.old ctx.new result }
{
    if slot == 0 {
        return ctx.temporary(bits);
    }
    exprs::slot_var(ctx, slot, bits)
}

// A load.
fn read_operand_lowered(ctx: &mut LiftCtx, site: Site, bits: u32) -> u32
    ensures { Does (read_operand_lowered_of ctx.old.state site bits) ctx.old ctx.new result }
{
    let v = variable(ctx, site.slot, bits);
    ctx.statement(LOAD, v as u64, site.memory as u64, bits as u64);
    v
}

// An 80-bit image takes a free input for the images that have no number.
fn image_read(ctx: &mut LiftCtx, raw: u32) -> u32
    ensures { Does (image_read_of ctx.old.state raw) ctx.old ctx.new result }
{
    let free = ctx.fresh(SLOT_BITS);
    exprs::extended_from_memory(ctx, raw, free)
}

// What was loaded, as a slot's pattern.
fn converted(ctx: &mut LiftCtx, raw: u32, width: u32, format: MemFormat) -> u32
    ensures { Does (converted_of ctx.old.state raw width format) ctx.old ctx.new result }
{
    if exprs::is_image(width, format) {
        return image_read(ctx, raw);
    }
    exprs::to_slot(ctx, raw, width, format)
}

pub fn x87_memory_read(ctx: &mut LiftCtx, site: Site, width: u16, format: MemFormat) -> u32
    ensures { Does (x87_memory_read_of ctx.old.state site width format) ctx.old ctx.new result }
{
    let raw = read_operand_lowered(ctx, site, width as u32);
    converted(ctx, raw, width as u32, format)
}

// The second input of an arithmetic instruction or of a compare.
pub fn source(ctx: &mut LiftCtx, site: Site, src: ArithSrc) -> u32
    ensures { Does (source_of ctx.old.state site src) ctx.old ctx.new result }
{
    match src {
        ArithSrc::Slot(index) => ctx.read(index),
        ArithSrc::Memory { width, format } => x87_memory_read(ctx, site, width, format),
    }
}

// A value into the first operand, `ax` or memory.
fn write_dst(ctx: &mut LiftCtx, site: Site, value: u32, bits: u32)
    ensures { Does (write_dst_of ctx.old.state site value bits) ctx.old ctx.new 0 }
{
    if site.register {
        ctx.statement(SET_AX, value as u64, 0, 0);
    } else {
        ctx.statement(STORE, site.memory as u64, value as u64, bits as u64);
    }
}

// The top, popped or read.
fn top(ctx: &mut LiftCtx, pop: bool) -> u32
    ensures { Does (top_of ctx.old.state pop) ctx.old ctx.new result }
{
    if pop { ctx.pop() } else { ctx.read(0) }
}

pub fn x87_store_memory(
    ctx: &mut LiftCtx,
    site: Site,
    width: u16,
    format: MemFormat,
    pop: bool,
    rounding: RoundingMode,
)
    ensures { Does (x87_store_memory_of ctx.old.state site width format pop rounding) ctx.old ctx.new 0 }
{
    let value = top(ctx, pop);
    let stored = exprs::from_slot(ctx, value, width as u32, format, rounding);
    write_dst(ctx, site, stored, width as u32);
}

pub fn x87_store_status(ctx: &mut LiftCtx, site: Site)
    ensures { Does (x87_store_status_of ctx.old.state site) ctx.old ctx.new 0 }
{
    let status = exprs::fsw(ctx);
    write_dst(ctx, site, status, STATUS_BITS);
}
