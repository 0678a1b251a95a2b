// Writes what a root needs as SMT-LIB text: declarations, definitions, assertions.
#![tactic(auto)]

mod formula;

ghost use Rattle.std.specs.Prelude.{◌≡◌, ◌≤◌, min};
ghost use Rattle.smtwriter.specs.Inside.{Clear, Enough, Sorted};
ghost use Rattle.smtwriter.specs.Written.{of_check, Writes};

use formula::Formula;
use sorts::CheckError;

// Why the text of a root is not written.
#[derive(Clone, Copy, Debug, PartialEq, Eq)]
pub enum WriteError {
    // The first node without a sort.
    Fault(usize),
    // More nodes than the room.
    Room,
    // The root is not in the list.
    NoRoot,
    // The text does not fit.
    Short,
}

impl From<CheckError> for WriteError {
    ghost from_gives = { λ e r. r ≡ of_check e };

    fn from(e: CheckError) -> WriteError {
        match e {
            CheckError::Fault(i) => WriteError::Fault(i),
            CheckError::Room => WriteError::Room,
        }
    }
}

// Writes the text of a root of a list that passes, over the table of its sorts and a clear column of marks.
fn rooted(
    nodes: &[u64],
    count: usize,
    root: usize,
    sorts: &[u16],
    marks: &mut [u8],
    out: &mut [u8],
) -> Result<usize, WriteError>
    requires { Sorted nodes.now count sorts.now × Clear count marks.old }
    ensures { Writes nodes.now count root result out.old out.new }
{
    if count <= root {
        return Err(WriteError::NoRoot);
    }
    needs::mark(nodes, root, marks);
    let formula = Formula {
        nodes,
        sorts: &sorts[..root + 1],
        marks: &marks[..root + 1],
    };
    writing::fitted(&formula, out).ok_or(WriteError::Short)
}

// Writes the text of a root, over columns of N entries.
fn over<const N: usize>(
    nodes: &[u64],
    count: usize,
    root: usize,
    out: &mut [u8],
) -> Result<usize, WriteError>
    requires { (min count 65535 ≤ N) × (N ≤ 65536) }
    ensures { Writes nodes.now count root result out.old out.new }
{
    let mut sorts = [0; N];
    let mut marks = [0; N];
    evaluator::table::fill(nodes, count, &mut sorts)?;
    rooted(nodes, count, root, &sorts, &mut marks, out)
}

// Writes the text of a root of the first `count` nodes, or nothing where the answer is another one.
pub fn write(nodes: &[u64], count: usize, root: usize, out: &mut [u8]) -> Result<usize, WriteError>
    ensures { Writes nodes.now count root result out.old out.new }
{
    // The long columns take their time to clear.
    if count <= 1024 {
        over::<1024>(nodes, count, root, out)
    } else {
        over::<65536>(nodes, count, root, out)
    }
}
