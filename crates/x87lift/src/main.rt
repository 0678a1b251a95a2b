// Reads records from standard input and writes their listing to standard output. With an argument it reads nothing and says its version or what it does.
#![tactic(auto)]

ghost use Rattle.std.specs.Prelude.{◌≤◌, length};
ghost use Rattle.std.specs.Io.{ReadsAtMost};
ghost use Rattle.x87lift.specs.Arguments.{Asks};

use std::env::{Env, FillError};
use std::io;
use std::io::{Input, Print, Read};

// What the program is asked for.
#[derive(Clone, Copy)]
enum Asked {
    Run,
    Version,
    Help,
}

// `count` words, the program's name among them; `first` is the one behind the name, empty where it has no room.
fn asked_for(count: usize, first: &[u8]) -> Asked
    ensures { Asks count first.now result }
{
    if count <= 1 {
        return Asked::Run;
    }
    if first == b"--version".as_slice() {
        return Asked::Version;
    }
    Asked::Help
}

// What the program reads and writes, and its limits.
const HELP: [&str; 15] = [
    "usage: x87lift < RECORDS > LISTING",
    "       x87lift --version",
    "",
    "Reads a record for each decoded x87 instruction and an end mark, at most 16,384",
    "bytes, from standard input, and lifts the instructions into formulas. x87rec",
    "makes such records of a disassembly.",
    "",
    "Writes a listing of decimal numbers to standard output:",
    "  n NUMBER KIND A B C                   a node, at most 1,024",
    "  s NUMBER KIND A B C                   a statement, at most 256",
    "  d DEPTH INPUTS TEMPORARIES SLOT..     the state behind the last instruction",
    "  r NUMBER PLACE                        why the run stopped, and at which byte",
    "x87show turns a listing into formulas that a person can read.",
    "",
    "The exit status cannot be set: that a run was refused is told by the row r.",
];

fn help(rt: &impl Print) -> io::Result<()> {
    for line in HELP {
        println!(rt; "{line}")?;
    }
    Ok(())
}

// Reads until a buffer is full or the input ends, and gives how many bytes it put at the buffer's start. It stands in replay too: std has none without a heap, and a crate for one function is no plainer.
fn read_full(from: &mut impl Read, buf: &mut [u8]) -> io::Result<usize>
    ensures { ReadsAtMost result buf.new }
{
    let mut done = 0;
    while done < buf.len() {
        let n = from.read(&mut buf[done..])?;
        if n == 0 {
            break;
        }
        done += n;
    }
    Ok(done)
}

// An input over 16,384 bytes is refused, so that one more is enough to tell. No listing is longer than the room for it (listed-fits in agreement).
fn lift(rt: &(impl Input + Print)) -> io::Result<()> {
    let mut input = [0u8; 16385];
    let mut nodes = [0u64; 4096];
    let mut statements = [0u64; 1024];
    let mut out = [0u8; 139264];
    let mut from = rt.reader();
    let n = read_full(&mut from, &mut input)?;
    let run = listing::run(&input[0..n], &mut nodes, &mut statements);
    let n = listing::list(&nodes, &statements, run, &mut out).unwrap_or(0);
    rt.write_all(&out[..n])
}

// Puts the word behind the program's name at a buffer's start and gives its length, 0 where there is no such word or no room for it.
fn first_word(rt: &impl Env, buf: &mut [u8]) -> usize
    ensures { result ≤ length buf.new }
{
    match rt.arg(1, buf) {
        Ok(n) => n,
        Err(_) => 0,
    }
}

// How many words the program was started with, its own name among them.
fn word_count(rt: &impl Env) -> usize {
    let mut none = [0u8; 0];
    for i in 0..usize::MAX {
        if let Err(FillError::NotPresent) = rt.arg(i, &mut none) {
            return i;
        }
    }
    usize::MAX
}

fn main(rt: HostRuntime) -> io::Result<()> {
    let mut first = [0u8; 16];
    let n = first_word(&rt, &mut first);
    let asked = asked_for(word_count(&rt), &first[0..n]);
    match asked {
        Asked::Run => lift(&rt),
        Asked::Version => println!(rt; "x87lift 0.1.0"),
        Asked::Help => help(&rt),
    }
}
