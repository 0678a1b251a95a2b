// Reads SMT-LIB text of the subset: the nodes that it says, or the first byte from which no text of it can follow.
#![tactic(auto)]

mod columns;
mod next;
mod rows;

ghost use Rattle.std.specs.Prelude.{◌≡◌, ◌<◌, ◌≤◌, length};
ghost use Rattle.smtgrammar.specs.Grammar.{done};
ghost use Rattle.smtreader.specs.Inside.{tables_of, state_of};
ghost use Rattle.smtreader.specs.Ran.{Starts, Ends, Wide};
ghost use Rattle.smtreader.specs.Text.{ReadsText, TriesText};

use columns::Columns;
use next::Reader;
use smtgrammar::{LIMIT, Line, Place, stage};

// Why no nodes are read.
#[derive(Clone, Copy)]
pub enum ReadError {
    // The first byte from which no text can follow.
    Stop(usize),
    // The nodes do not fit.
    Room,
}

impl Reader<'_> {
    // Some node is there, none is obliged, and no assertion is due.
    fn is_done(&self) -> bool
        ensures { result ≡ done (state_of self.now) }
    {
        let p = &self.place;
        self.line.stage == stage::LINE && 1 <= p.count && p.owed == LIMIT && p.due == LIMIT
    }

    // Runs over the tokens of a text: the number of its nodes, or the place from which none can follow; or a number has no entry in the columns.
    fn run(&mut self, x: &[u8]) -> Option<Result<usize, usize>>
        requires { Starts (tables_of self.old.columns) self.old.place self.old.line }
        ensures ends { Ends x.now (tables_of self.new.columns) result }
        ensures wide { Wide (length self.old.columns.kinds.now) (tables_of self.new.columns) }
    {
        let mut at = 0;
        // The place goes on by a token's length: no iterator is plainer.
        while at < x.len() {
            match smttokens::take(&x[at..], &self.state()) {
                Err(q) => return Some(Err(at + q)),
                Ok(token) => {
                    self.next(token.choice);
                    at += token.length;
                }
            }
            if self.columns.kinds.len() <= self.line.node {
                return None;
            }
        }
        Some(if self.is_done() {
            Ok(self.place.count)
        } else {
            Err(at)
        })
    }

    // Reads a text into nodes, where the columns are long enough.
    fn read(&mut self, text: &[u8], nodes: &mut [u64]) -> Option<Result<usize, ReadError>>
        requires { Starts (tables_of self.old.columns) self.old.place self.old.line }
        ensures { TriesText text.now nodes.old (length self.old.columns.kinds.now) result nodes.new }
    {
        match self.run(text)? {
            Err(q) => Some(Err(ReadError::Stop(q))),
            Ok(n) => if (lists::room(nodes.len()) as usize) < n {
                Some(Err(ReadError::Room))
            } else {
                self.columns.rows(nodes);
                Some(Ok(n))
            },
        }
    }
}

// Reads a text into nodes, over columns of N entries, where those are enough.
fn over<const N: usize>(text: &[u8], nodes: &mut [u64]) -> Option<Result<usize, ReadError>>
    requires { (0 < N) × (N ≤ 65536) }
    ensures { TriesText text.now nodes.old N result nodes.new }
{
    let mut kinds = [0u8; N];
    let mut firsts = [0u64; N];
    let mut seconds = [0u16; N];
    let mut thirds = [0u16; N];
    let mut sorts = [0u16; N];
    let mut lowest = [LIMIT as u16; 3905];
    let columns = Columns {
        kinds: &mut kinds,
        firsts: &mut firsts,
        seconds: &mut seconds,
        thirds: &mut thirds,
        sorts: &mut sorts,
        lowest: &mut lowest,
    };
    let mut reader = Reader {
        columns,
        place: Place::START,
        line: Line::NONE,
    };
    reader.read(text, nodes)
}

// Reads a text into nodes, as rows of four words; how many there are: nothing is written where it stops, or where they do not fit.
pub fn read(text: &[u8], nodes: &mut [u64]) -> Result<usize, ReadError>
    ensures { ReadsText text.now nodes.old result nodes.new }
{
    // A longer text has numbers that short columns have no entry for, as a rule.
    if text.len() <= 131072
        && let Some(told) = over::<1024>(text, nodes)
    {
        return told;
    }
    // The long columns are not too short.
    over::<65536>(text, nodes).unwrap_or(Err(ReadError::Room))
}
