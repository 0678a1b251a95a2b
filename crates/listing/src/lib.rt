// The run over a whole input, and the listing of what it came to.
#![tactic(auto)]

mod print;

ghost use Rattle.std.specs.Prelude.{◌≡◌, length};
ghost use Rattle.listing.specs.Run.{Runs, refused_at, run_from, run_of};
ghost use Rattle.listing.specs.Inside.Turn.{Turns};
ghost use Rattle.listing.specs.Listing.{text_of};
ghost use Rattle.writing.specs.Fits.{Fits};

use lists::{LiftCtx, State};
use print::Listing;
use reader::Reader;
use std::ops::ControlFlow;

// A refusal's number, and its place in the input. A number, as the listing's row has it: a reader's refusal, a lifter's, or 13.
#[derive(Clone, Copy, Debug, PartialEq, Eq)]
pub struct Refused {
    pub number: u32,
    pub place: usize,
}

// Where a run stopped: its state, and the refusal that stopped it, if one did.
#[derive(Clone, Copy)]
pub struct Stop {
    pub state: State,
    pub refused: Option<Refused>,
}

impl Stop {
    fn refused(state: State, number: u32, place: usize) -> Stop
        ensures { result ≡ refused_at state number place }
    {
        Stop {
            state,
            refused: Some(Refused { number, place }),
        }
    }
}

// One turn: the record at the reader's place is lifted, or the run stops.
fn turn(
    reader: &mut Reader,
    nodes: &mut [u64],
    statements: &mut [u64],
    state: State,
) -> ControlFlow<Stop, State>
    ensures { Turns reader.old state nodes.old statements.old result reader.new nodes.new statements.new }
{
    let at = reader.at;
    match reader.take() {
        Ok(Some(insn)) => {
            let mut ctx = LiftCtx {
                nodes,
                statements,
                state,
            };
            match lifter::lift(&mut ctx, insn) {
                Ok(_) => ControlFlow::Continue(ctx.state),
                Err(refusal) => ControlFlow::Break(Stop::refused(ctx.state, refusal as u32, at)),
            }
        }
        Ok(None) => ControlFlow::Break(Stop {
            state,
            refused: None,
        }),
        Err(refusal) => ControlFlow::Break(Stop::refused(state, refusal.number(), reader.at)),
    }
}

// Lifts what one reader takes, turn by turn, until the run stops.
fn turns(input: &[u8], nodes: &mut [u64], statements: &mut [u64], start: State) -> Stop
    ensures { Runs (run_from (length input.now) input.now 0 start nodes.old statements.old) result nodes.new statements.new }
{
    let mut reader = Reader::new(input);
    let mut state = start;
    loop {
        match turn(&mut reader, nodes, statements, state) {
            ControlFlow::Continue(next) => state = next,
            ControlFlow::Break(stop) => return stop,
        }
    }
}

// Lifts the records of an input one after the other, up to the end mark or to the first refusal.
pub fn run(input: &[u8], nodes: &mut [u64], statements: &mut [u64]) -> Stop
    ensures { Runs (run_of input.now nodes.old statements.old) result nodes.new statements.new }
{
    let start = State::new();
    if 16384 < input.len() {
        return Stop::refused(start, 13, 0);
    }
    turns(input, nodes, statements, start)
}

// Writes the listing of a run over these lists and gives its length, or writes nothing where it does not fit.
pub fn list(nodes: &[u64], statements: &[u64], run: Stop, out: &mut [u8]) -> Option<usize>
    ensures { Fits (text_of nodes.now statements.now run) result out.old out.new }
{
    let listing = Listing {
        nodes,
        statements,
        run: &run,
    };
    writing::fitted(&listing, out)
}
