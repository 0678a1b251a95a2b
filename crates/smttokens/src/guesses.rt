// What the choice probably is, from a few bytes: nothing is promised of it.
use smtgrammar::{Line, part, stage};

// The byte at a place, 0 past the end.
fn byte(x: &[u8], i: usize) -> u8 {
    x.get(i).copied().unwrap_or(0)
}

// A digit at the front, 10 for any other byte.
fn digit(x: &[u8]) -> usize {
    match byte(x, 0) {
        b @ b'0'..=b'9' => (b - b'0') as usize,
        _ => 10,
    }
}

// The number that five digits from a place on mean.
fn number(x: &[u8], at: usize) -> usize {
    let mut v = 0;
    for b in x.iter().skip(at) {
        if !b.is_ascii_digit() || 9999 < v {
            return v;
        }
        v = v * 10 + (*b - b'0') as usize;
    }
    v
}

// A line, by its third letter.
fn line(x: &[u8]) -> usize {
    match byte(x, 3) {
        b'c' => part::DECLARES,
        b'f' => part::DEFINES,
        _ => part::ASSERTS,
    }
}

// A sort: a width, or a format by its exponent bits.
fn sort(x: &[u8]) -> usize {
    if byte(x, 6) == b'B' {
        return number(x, 13);
    }
    match number(x, 20) {
        8 => 2072,
        11 => 2869,
        _ => 3904,
    }
}

// What opens a term: the first text that is there.
fn opening(x: &[u8], s: usize) -> usize {
    (6..28)
        .find(|k| crate::texts::opening(x, 0, *k, s).is_ok())
        .unwrap_or(28)
}

// An operand by its number, or a word.
fn operand(x: &[u8]) -> usize {
    match (byte(x, 0), byte(x, 1)) {
        (b'#', _) => 65536,
        (b'R', b'N') => 65537,
        (b'R', _) => 65538,
        _ => number(x, 1),
    }
}

// The choice at the line's stage.
pub(crate) fn guess(x: &[u8], l: &Line) -> usize {
    match l.stage {
        stage::LINE => line(x),
        stage::DIGIT | stage::BIT => digit(x),
        stage::WIDTH => number(x, 13),
        stage::SORT => sort(x),
        stage::OPENING => opening(x, l.sort),
        stage::FIRST..=stage::OPERAND_2 => operand(x),
        stage::ASSERTED => 0,
        _ => number(x, 0),
    }
}
