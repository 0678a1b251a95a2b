// Replays the stored answers of the Rust: each row of data/ against the proved calls.
#![tactic(auto)]

ghost use Rattle.std.specs.Prelude.{◌<◌, ◌≤◌};
ghost use Rattle.std.specs.Io.{ReadsAtMost};

use std::io::{Print, Read};
use std::rt::Files;
use std::{fs, io};

// Whose rows are read, one of the files in data/.
#[derive(Clone, Copy)]
enum File {
    Instructions,
    Records,
    Lifts,
    Checks,
    Values,
    Images,
}

// The head of a row, of which each file has its own number of bytes.
type Head = [u8; 289];

// The number that two bytes at a place make.
fn two(s: &[u8], at: usize) -> usize
    ensures { result < 65536 }
{
    words::bytes::le::<2>(s, at) as usize
}

// The words that bytes make, so many for each, as many as there are of both.
fn load(words: &mut [u64], s: &[u8], size: usize)
    requires { 0 < size }
{
    for (word, bytes) in words.iter_mut().zip(s.chunks_exact(size)) {
        *word = words::bytes::le::<8>(bytes, 0);
    }
}

// Whether bytes, at most eight, are a word's own, low byte first.
fn word_equal(word: u64, s: &[u8]) -> bool {
    let bytes = word.to_le_bytes();
    let (low, high) = bytes.split_at(s.len().min(8));
    low == s && high.iter().all(|b| *b == 0)
}

// Whether bytes are the words' own, so many for each.
fn words_equal(words: &[u64], s: &[u8], size: usize) -> bool
    requires { 0 < size }
{
    let parts = s.chunks_exact(size);
    parts.len() == words.len()
        && parts.remainder().is_empty()
        && words
            .iter()
            .zip(parts)
            .all(|(w, part)| word_equal(*w, part))
}

// Whether every word is zero.
fn zeros(words: &[u64]) -> bool {
    words.iter().all(|w| *w == 0)
}

// Whether a list that was all zeros has the added rows from a place on, and no other change.
fn list_equal(list: &[u64], from: usize, rows: &[u8]) -> bool {
    if rows.is_empty() {
        return zeros(list);
    }
    let Some((before, rest)) = list.split_at_checked(from) else {
        return false;
    };
    let Some((added, after)) = rest.split_at_checked(rows.len() / 8) else {
        return false;
    };
    zeros(before) && zeros(after) && words_equal(added, rows, 8)
}

// A row: 177 bytes of an instruction, the answer, eight form words, seven flags of its effect, the detail.
fn instruction_equal(head: &Head) -> bool {
    let mut words = [1; 8];
    let mut flags = [2; 7];
    let mut detail = [1; 1];
    let a = export::x87_classify(&head[..177], &mut words);
    let b = export::x87_effect(&head[..177], &mut flags);
    let c = export::x87_why(&head[..177], &mut detail);
    a == u32::from(head[177])
        && a == b
        && a == c
        && words_equal(&words, &head[178..242], 8)
        && words_equal(&flags, &head[242..249], 1)
        && detail[0] == u64::from(head[249])
}

// A row's head: input length and start place (two bytes each), answer, place (two bytes), record or not, 177 bytes of its instruction; then the input.
fn record_equal(head: &Head, input: &[u8]) -> bool {
    let mut flat = [0; 177];
    let mut out = [2; 2];
    let answer = export::x87_read_record(input, two(head, 2), &mut flat, &mut out);
    answer == u32::from(head[4])
        && out[0] == two(head, 5) as u64
        && out[1] == u64::from(head[7])
        && flat.as_slice() == &head[8..185]
}

// Whether both lists have the rows of a tail, each from the count of the state before on.
fn lists_equal(head: &Head, tail: &[u8], nodes: &[u64], statements: &[u64]) -> bool {
    let first = 4 * words::bytes::le::<4>(head, 36) as usize;
    let second = 4 * words::bytes::le::<4>(head, 40) as usize;
    let Some((added, said)) = tail.split_at_checked(32 * usize::from(head[286])) else {
        return false;
    };
    list_equal(nodes, first, added) && list_equal(statements, second, said)
}

// A row's head: state before (13 numbers of four bytes), rooms of both lists (two bytes each), 177 bytes of the instruction, answer, state after, how many rows each list gains, the detail; then those rows.
fn lift_equal(head: &Head, tail: &[u8]) -> bool {
    let first = 4 * two(head, 52);
    let second = 4 * two(head, 54);
    if 4096 < first || 4096 < second {
        return false;
    }
    let mut state = [0; 13];
    let mut nodes = [0; 4096];
    let mut statements = [0; 4096];
    let mut detail = [1; 1];
    load(&mut state, head, 4);
    let answer = export::x87_lift(
        &head[56..233],
        &mut state,
        &mut nodes[..first],
        &mut statements[..second],
        &mut detail,
    );
    answer == u32::from(head[233])
        && detail[0] == u64::from(head[288])
        && words_equal(&state, &head[234..286], 4)
        && lists_equal(head, tail, &nodes, &statements)
}

// A row's head: answer, first bad node, count and number of words (two bytes each); then the words.
fn check_equal(head: &Head, tail: &[u8]) -> bool {
    let size = two(head, 5);
    if 64 < size {
        return false;
    }
    let mut nodes = [0; 64];
    let mut out = [0; 1];
    load(&mut nodes, tail, 8);
    let answer = export::values::x87_check(&nodes[..size], two(head, 3), &mut out);
    answer == u32::from(head[0]) && out[0] == two(head, 1) as u64
}

// Whether an evaluation gives a row's answer and node, and leaves these bytes' words in the column.
fn column_equal(
    head: &Head,
    nodes: &[u64],
    given: &[u64],
    column: &mut [u64],
    after: &[u8],
) -> bool {
    let mut out = [0; 1];
    let answer = export::values::x87_evaluate(nodes, two(head, 3), given, column, &mut out);
    answer == u32::from(head[0]) && out[0] == two(head, 1) as u64 && words_equal(column, after, 8)
}

// A row's head: answer, node, count, and how many words the list, the given and the lent column have; then those words.
fn value_equal(head: &Head, tail: &[u8]) -> bool {
    let first = two(head, 5);
    let second = two(head, 7);
    let third = two(head, 9);
    if 128 < first || 128 < second || 128 < third {
        return false;
    }
    let Some((list, rest)) = tail.split_at_checked(8 * first) else {
        return false;
    };
    let Some((put, after)) = rest.split_at_checked(8 * second) else {
        return false;
    };
    let mut nodes = [0; 128];
    let mut given = [0; 128];
    let mut column = [u64::MAX; 128];
    load(&mut nodes, list, 8);
    load(&mut given, put, 8);
    column_equal(
        head,
        &nodes[..first],
        &given[..second],
        &mut column[..third],
        after,
    )
}

// A row: an image, the free pattern's two words, the answer, the pattern's two words, and the image written from it; a refused pattern is 0, and so is its image.
fn image_equal(head: &Head) -> bool {
    let mut out = [1; 2];
    let mut image = [0; 10];
    let answer = export::values::x87_image_read(
        &head[..10],
        words::bytes::le::<8>(head, 10),
        words::bytes::le::<8>(head, 18),
        &mut out,
    );
    export::values::x87_image_write(&mut image, out[0], out[1]);
    answer == u32::from(head[26])
        && words_equal(&out, &head[27..43], 8)
        && image.as_slice() == &head[43..53]
}

// Whether a row's answers are the calls' own.
fn row_equal(file: File, head: &Head, tail: &[u8]) -> bool {
    match file {
        File::Instructions => instruction_equal(head),
        File::Records => record_equal(head, tail),
        File::Lifts => lift_equal(head, tail),
        File::Checks => check_equal(head, tail),
        File::Values => value_equal(head, tail),
        File::Images => image_equal(head),
    }
}

// How many bytes a row's head has.
fn head_size(file: File) -> usize
    ensures { result ≤ 289 }
{
    match file {
        File::Instructions => 250,
        File::Records => 185,
        File::Lifts => 289,
        File::Checks => 7,
        File::Values => 11,
        File::Images => 53,
    }
}

// How many bytes so many words have; no stored row has more than 1,024.
fn words_size(a: usize, b: usize, c: usize) -> usize
    ensures { result < 65536 }
{
    if a <= 1024 && b <= 1024 && c <= 1024 {
        8 * (a + b + c)
    } else {
        0
    }
}

// How many bytes follow a row's head.
fn tail_size(file: File, head: &Head) -> usize
    ensures { result < 65536 }
{
    match file {
        File::Instructions | File::Images => 0,
        File::Records => two(head, 0),
        File::Lifts => 32 * (usize::from(head[286]) + usize::from(head[287])),
        File::Checks => words_size(two(head, 5), 0, 0),
        File::Values => words_size(two(head, 5), two(head, 7), two(head, 9)),
    }
}

// Reads until a buffer is full or the input ends, and gives how many bytes it put at the buffer's start. It stands in x87lift too: std has none without a heap, and a crate for one function is no plainer.
fn read_full(from: &mut impl Read, buf: &mut [u8]) -> io::Result<usize>
    ensures { ReadsAtMost result buf.new }
{
    let mut done = 0;
    while done < buf.len() {
        let n = from.read(&mut buf[done..])?;
        if n == 0 {
            break;
        }
        done += n;
    }
    Ok(done)
}

// Reads a row's tail, which fills a part, and says whether the row is equal.
fn rest(from: &mut impl Read, file: File, head: &Head, part: &mut [u8]) -> io::Result<bool> {
    let got = read_full(from, part)?;
    Ok(got == part.len() && row_equal(file, head, part))
}

// Reads a row, if there is a further one, and says whether it is equal.
fn next_row(from: &mut impl Read, file: File) -> io::Result<Option<bool>> {
    let mut head = [0; 289];
    let mut tail = [0; 65536];
    let size = head_size(file);
    let n = read_full(from, &mut head[..size])?;
    if n == 0 {
        return Ok(None);
    }
    if n < size {
        return Ok(Some(false));
    }
    let more = tail_size(file, &head);
    let equal = rest(from, file, &head, &mut tail[..more])?;
    Ok(Some(equal))
}

// How many rows were equal, up to the end or to the first that differs.
fn say(rt: &impl Print, rows: u64, equal: bool) -> io::Result<()> {
    if equal {
        println!(rt; "{rows} equal")
    } else {
        println!(rt; "{rows} equal, and then one differs")
    }
}

// Every row of a file: a proved loop has to end, so it stops after a million.
fn rows(rt: &impl Print, from: &mut impl Read, file: File) -> io::Result<()> {
    for n in 0..1_000_000 {
        match next_row(from, file)? {
            Some(true) => {}
            Some(false) => return say(rt, n, false),
            None => return say(rt, n, true),
        }
    }
    say(rt, 1_000_000, false)
}

// All rows of one file.
fn replay(rt: &(impl Files + Print), file: File, path: &str, name: &str) -> io::Result<()> {
    let mut from = fs::open(rt, path)?;
    print!(rt; "{name} ")?;
    rows(rt, &mut from, file)
}

fn main(rt: HostRuntime) -> io::Result<()> {
    replay(&rt, File::Instructions, "instructions.bin", "instructions")?;
    replay(&rt, File::Records, "records.bin", "records")?;
    replay(&rt, File::Lifts, "lifts.bin", "lifts")?;
    replay(&rt, File::Checks, "checks.bin", "checks")?;
    replay(&rt, File::Values, "values.bin", "values")?;
    replay(&rt, File::Images, "images.bin", "images")
}
