// What Rust calls, on numbers and slices: classify, effect, the reader of records, the lifter, the image, the sort check, the evaluator and the writer of a root's text.
// Answers are the numbers of the manual, section 7, since C is given them; 10 is 'too short'.
#![tactic(auto)]

mod flat;
pub mod smt;
mod state;
pub mod values;

ghost use Rattle.std.specs.Prelude.{◌≡◌, ◌≤◌, length};
ghost use Rattle.records.specs.Format.{taken_at};
ghost use Rattle.export.specs.Flat.{laid};
ghost use Rattle.export.specs.Lifts.{Places, placed_in};
ghost use Rattle.export.specs.Steps.{Steps, called_of, stepped_of, told_of};
ghost use Rattle.export.specs.Answers.{Classifies, Reasons, Affects, ReadsRecord};

use forms::{Classified, Instruction};
use lifter::{Lifted, Refusal};
use lists::LiftCtx;
use memory::Site;
use reader::Reader;

// Writes words to the front of a lent slice.
pub(crate) fn lay(out: &mut [u64], w: &[u64])
    requires { length w.now ≤ length out.old }
    ensures { out.new ≡ laid out.old 0 w.now }
{
    out[..w.len()].copy_from_slice(w);
}

// Classifies the instruction that stands in the first 177 bytes, and tells its form's eight words.
pub fn x87_classify(flat: &[u8], out: &mut [u64]) -> u32
    ensures { Classifies flat.now out.old result out.new }
{
    if out.len() < 8 {
        return 10;
    }
    let Some(bytes) = flat.first_chunk() else {
        lay(out, &[0; 8]);
        return 10;
    };
    let answer = forms::classify(&flat::read(bytes));
    lay(out, &answers::fields(answer));
    answers::number(&answer)
}

// Tells why the instruction that stands in the first 177 bytes is declined; the answer is that of `x87_classify`.
pub fn x87_why(flat: &[u8], out: &mut [u64]) -> u32
    ensures { Reasons flat.now out.old result out.new }
{
    if out.len() < 1 {
        return 10;
    }
    out[0] = 0;
    let Some(bytes) = flat.first_chunk() else {
        return 10;
    };
    let insn = flat::read(bytes);
    let answer = answers::number(&forms::classify(&insn));
    if answer == 1 {
        out[0] = details::number(details::why(&insn)) as u64;
    }
    answer
}

// Tells the seven flags of what the instruction touches.
pub fn x87_effect(flat: &[u8], out: &mut [u64]) -> u32
    ensures { Affects flat.now out.old result out.new }
{
    if out.len() < 7 {
        return 10;
    }
    let Some(bytes) = flat.first_chunk() else {
        lay(out, &[0; 7]);
        return 10;
    };
    let answer = forms::x87_effect(&flat::read(bytes));
    lay(out, &answers::effect_fields(answer));
    answers::number(&answer)
}

// Reads the record at a place: tells the next place or the offending one and whether a record was read, and writes its instruction.
pub fn x87_read_record(input: &[u8], at: usize, flat: &mut [u8], out: &mut [u64]) -> u32
    ensures { ReadsRecord (taken_at input.now at) flat.old out.old result flat.new out.new }
{
    if out.len() < 2 {
        return 10;
    }
    let Some(bytes) = flat.first_chunk_mut() else {
        lay(out, &[0; 2]);
        return 10;
    };
    let mut reader = Reader::new(input);
    match reader.record_at(at) {
        Ok(Some(insn)) => {
            lay(out, &[reader.at as u64, 1]);
            flat::write(bytes, insn);
            0
        }
        Ok(None) => {
            lay(out, &[reader.at as u64, 0]);
            0
        }
        Err(refused) => {
            lay(out, &[reader.at as u64, 0]);
            refused.number()
        }
    }
}

// Lifts what `classify` answered over a state of 13 words, which are written unless the lift is refused, and two lists of rows of four.
fn lift_in(
    classified: Classified,
    detail: u32,
    site: Site,
    state: &mut [u64],
    nodes: &mut [u64],
    statements: &mut [u64],
) -> Result<Lifted, Refusal>
    requires { 13 ≤ length state.old }
    ensures { Places (placed_in classified detail site state.old nodes.old statements.old) result state.new nodes.new statements.new }
{
    if !state::small(state) {
        return Err(Refusal::BadState);
    }
    let mut ctx = LiftCtx {
        nodes,
        statements,
        state: state::read(state),
    };
    let lifted = lifter::lift_classified(&mut ctx, classified, detail, site)?;
    lay(state, &state::words(ctx.state));
    Ok(lifted)
}

// Lifts the instruction that stands in the first 177 bytes, and tells the detail of a decline. It is classified here, where it lies: to hand it on by value is to copy all of it.
pub fn x87_lift(
    flat: &[u8],
    state: &mut [u64],
    nodes: &mut [u64],
    statements: &mut [u64],
    out: &mut [u64],
) -> u32
    ensures { Steps 1 (called_of flat.now state.old nodes.old statements.old) state.old nodes.old statements.old out.old result state.new nodes.new statements.new out.new }
{
    if out.len() < 1 {
        return 10;
    }
    out[0] = 0;
    let Some(bytes) = flat.first_chunk() else {
        return 10;
    };
    if state.len() < 13 {
        return 10;
    }
    let insn = flat::read(bytes);
    let classified = forms::classify(&insn);
    let detail = details::number(details::detail(classified, &insn));
    let site = Site::of(&insn);
    let outcome = lift_in(classified, detail, site, state, nodes, statements);
    out[0] = lifter::detail(outcome) as u64;
    lifter::number(outcome)
}

// Tells the three words beside a record's answer: by its number, as told_of has it.
fn tell(out: &mut [u64], answer: u32, detail: u32, next: usize, at: usize)
    requires { 3 ≤ length out.old }
    ensures { out.new ≡ laid out.old 0 (told_of answer detail next at) }
{
    if answer <= 2 {
        lay(out, &[next as u64, 1, detail as u64]);
    } else {
        lay(out, &[at as u64, 0, 0]);
    }
}

// Reads the record at a place and lifts its instruction over a state of 13 words, where there is room to tell.
fn lift_record_in(
    input: &[u8],
    at: usize,
    state: &mut [u64],
    nodes: &mut [u64],
    statements: &mut [u64],
    out: &mut [u64],
) -> u32
    requires { (13 ≤ length state.old) × (3 ≤ length out.old) }
    ensures { Steps 3 (stepped_of (taken_at input.now at) at state.old nodes.old statements.old) state.old nodes.old statements.old out.old result state.new nodes.new statements.new out.new }
{
    let mut reader = Reader::new(input);
    match reader.record_at(at) {
        Ok(Some(insn)) => {
            let classified = forms::classify(&insn);
            let detail = details::number(details::detail(classified, &insn));
            let site = Site::of(&insn);
            let outcome = lift_in(classified, detail, site, state, nodes, statements);
            let answer = lifter::number(outcome);
            let told = lifter::detail(outcome);
            tell(out, answer, told, reader.at, at);
            answer
        }
        Ok(None) => {
            lay(out, &[reader.at as u64, 0, 0]);
            0
        }
        Err(refusal) => {
            lay(out, &[reader.at as u64, 0, 0]);
            refusal.number()
        }
    }
}

// Reads the record at a place and lifts its instruction.
pub fn x87_lift_record(
    input: &[u8],
    at: usize,
    state: &mut [u64],
    nodes: &mut [u64],
    statements: &mut [u64],
    out: &mut [u64],
) -> u32
    ensures { Steps 3 (stepped_of (taken_at input.now at) at state.old nodes.old statements.old) state.old nodes.old statements.old out.old result state.new nodes.new statements.new out.new }
{
    if out.len() < 3 {
        return 10;
    }
    if state.len() < 13 {
        lay(out, &[0; 3]);
        return 10;
    }
    lift_record_in(input, at, state, nodes, statements, out)
}
