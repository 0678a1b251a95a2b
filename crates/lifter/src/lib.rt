// The lift of x87 instructions: `apply_x87`, and the one call `lift`.
#![tactic(auto)]

ghost use Rattle.std.specs.Prelude.{◌≡◌, ◌+◌, leb};
ghost use Rattle.lists.specs.Rows.{room_of};
ghost use Rattle.lists.specs.Steps.{Does};
ghost use Rattle.moves.specs.Pushes.{pushed_number};
ghost use Rattle.lifter.specs.Apply.{apply_x87_of};
ghost use Rattle.lifter.specs.Lift.{lowered_of, fitting_of, placed_of, lift_of, Lifts, Lowers, number_of, detail_in};

use forms::{BadInstruction, Classified, Form, Instruction};
use lists::{LiftCtx, X87Error};
use memory::Site;

// No form adds more nodes, or more statements.
const MOST_NODES: u32 = 46;

const MOST_STATEMENTS: u32 = 5;

// What a lift came to: all that the instruction does, or a decline, of which the first has a detail: a number, since lift_classified is public and takes any.
#[derive(Clone, Copy, PartialEq, Eq)]
pub enum Lifted {
    Modelled,
    Declined(u32),
    Overflowed,
}

// Why nothing was done.
#[derive(Clone, Copy, PartialEq, Eq)]
pub enum Refusal {
    BadText = 3,
    BadOperands,
    BadState,
    NodesFull,
    StatementsFull,
}

// The number of what a lift came to, or of why nothing was done (the manual, section 7).
pub fn number(outcome: Result<Lifted, Refusal>) -> u32
    ensures { result ≡ number_of outcome }
{
    match outcome {
        Ok(Lifted::Modelled) => 0,
        Ok(Lifted::Declined(_)) => 1,
        Ok(Lifted::Overflowed) => 2,
        Err(refusal) => refusal as u32,
    }
}

// The detail of a decline, and 0 beside all else.
pub fn detail(outcome: Result<Lifted, Refusal>) -> u32
    ensures { result ≡ detail_in outcome }
{
    match outcome {
        Ok(Lifted::Declined(detail)) => detail,
        _ => 0,
    }
}

fn apply_x87(ctx: &mut LiftCtx, form: Form, site: Site) -> Result<(), X87Error>
    ensures { Does (apply_x87_of ctx.old.state form site) ctx.old ctx.new (pushed_number result) }
{
    match form {
        Form::PushConst { low, high } => return moves::push_const(ctx, site, low, high),
        Form::PushMemory { width, format } => return moves::push_memory(ctx, site, width, format),
        Form::PushSlot(index) => return moves::push_slot(ctx, site, index),
        Form::StoreMemory {
            width,
            format,
            pop,
            rounding,
        } => memory::x87_store_memory(ctx, site, width, format, pop, rounding),
        Form::StoreSlot { index, pop } => moves::store_slot(ctx, index, pop),
        Form::Arith {
            op,
            dst,
            src,
            reversed,
            pop,
        } => moves::x87_arith(ctx, site, op, dst, src, reversed, pop),
        Form::CompareStatus { src, pops } => moves::x87_compare_status(ctx, site, src, pops),
        Form::CompareFlags { src, pop } => moves::x87_compare_flags(ctx, src, pop),
        Form::ConditionalMove { src, condition } => moves::x87_conditional_move(
            ctx, src, condition,
        ),
        Form::StoreStatus => memory::x87_store_status(ctx, site),
        Form::Exchange(index) => ctx.exchange(index),
        Form::Unary(op) => moves::x87_unary(ctx, op),
    }
    Ok(())
}

// What classify answered, its detail and the site stay three parameters: a struct would be made and taken apart in two crates, and the definitions are over the three.
// What an instruction comes to, over lists of any length.
fn lower(
    ctx: &mut LiftCtx,
    classified: Classified,
    detail: u32,
    site: Site,
) -> Result<Lifted, Refusal>
    ensures { Lowers (lowered_of ctx.old.state classified detail site) detail ctx.old ctx.new result }
{
    match classified {
        Ok(Some(form)) => match apply_x87(ctx, form, site) {
            Ok(()) => Ok(Lifted::Modelled),
            Err(X87Error::StackOverflow) => Ok(Lifted::Overflowed),
        },
        Ok(None) => {
            moves::decline_x87(ctx, 1, site.address, detail);
            Ok(Lifted::Declined(detail))
        }
        Err(BadInstruction::Text) => Err(Refusal::BadText),
        Err(BadInstruction::Operands) => Err(Refusal::BadOperands),
    }
}

// The instruction is done once on lists without room, to see what it needs, and nothing is changed where that does not fit.
fn fit_tight(
    ctx: &mut LiftCtx,
    classified: Classified,
    detail: u32,
    site: Site,
) -> Result<Lifted, Refusal>
    ensures { Lowers (fitting_of (lowered_of ctx.old.state classified detail site) ctx.old.state ctx.old.nodes.now ctx.old.statements.now) detail ctx.old ctx.new result }
{
    let mut trial = LiftCtx {
        nodes: &mut [],
        statements: &mut [],
        state: ctx.state,
    };
    let _ = lower(&mut trial, classified, detail, site);
    if lists::room(ctx.nodes.len()) < trial.state.nodes {
        return Err(Refusal::NodesFull);
    }
    if lists::room(ctx.statements.len()) < trial.state.statements {
        return Err(Refusal::StatementsFull);
    }
    lower(ctx, classified, detail, site)
}

// Whether so many rows more have room.
fn ample(words: usize, count: u32, more: u32) -> bool
    ensures { result ≡ leb (count + more) (room_of words) }
{
    count as u64 + more as u64 <= lists::room(words) as u64
}

// An instruction, if the whole of it fits. Where the room is ample for any form there is nothing to find out first.
fn fit(
    ctx: &mut LiftCtx,
    classified: Classified,
    detail: u32,
    site: Site,
) -> Result<Lifted, Refusal>
    ensures { Lowers (fitting_of (lowered_of ctx.old.state classified detail site) ctx.old.state ctx.old.nodes.now ctx.old.statements.now) detail ctx.old ctx.new result }
{
    let s = &ctx.state;
    if ample(ctx.nodes.len(), s.nodes, MOST_NODES)
        && ample(ctx.statements.len(), s.statements, MOST_STATEMENTS)
    {
        return lower(ctx, classified, detail, site);
    }
    fit_tight(ctx, classified, detail, site)
}

// Lifts what `classify` answered, with the detail of a decline, if the state is valid.
pub fn lift_classified(
    ctx: &mut LiftCtx,
    classified: Classified,
    detail: u32,
    site: Site,
) -> Result<Lifted, Refusal>
    ensures { Lowers (placed_of ctx.old.state classified detail site ctx.old.nodes.now ctx.old.statements.now) detail ctx.old ctx.new result }
{
    let nodes = lists::room(ctx.nodes.len());
    let statements = lists::room(ctx.statements.len());
    if ctx.state.valid(nodes, statements) {
        return fit(ctx, classified, detail, site);
    }
    Err(Refusal::BadState)
}

// Lifts one instruction.
pub fn lift(ctx: &mut LiftCtx, insn: Instruction) -> Result<Lifted, Refusal>
    ensures { Lifts (lift_of ctx.old.state insn ctx.old.nodes.now ctx.old.statements.now) insn ctx.old ctx.new result }
{
    let classified = forms::classify(&insn);
    let detail = details::number(details::detail(classified, &insn));
    lift_classified(ctx, classified, detail, Site::of(&insn))
}
