// The table of sorts: the sort of a node from its row of four words (kind, a, b, c) and the sorts of its operands.
#![tactic(auto)]

ghost use Rattle.std.specs.Prelude.{◌≡◌, ◌&&◌, ◌+◌, ◌-◌, leb, ltb, eqb};
ghost use Rattle.sorts.specs.Sorts.{when, is_bits, is_float, is_stored, is_word, pattern_width, sort_row};

use words::Wide;

// Why a list does not pass the check.
#[derive(Clone, Copy, Debug, PartialEq, Eq)]
pub enum CheckError {
    // The first node without a sort.
    Fault(usize),
    // More nodes than the room.
    Room,
}

// Tests joined by `|`: as `matches!` they become branches on the format, and a node of a lifted list takes 37.4 instructions in the check for 36.7.
pub fn is_bits(s: u64) -> bool
    ensures { result ≡ is_bits s }
{
    (1 <= s) & (s <= 80)
}

pub fn is_float(s: u64) -> bool
    ensures { result ≡ is_float s }
{
    (s == 2072) | (s == 2869) | (s == 3904)
}

pub fn is_stored(s: u64) -> bool
    ensures { result ≡ is_stored s }
{
    (s == 16) | (s == 32) | (s == 64) | (s == 80)
}

pub fn is_word(s: u64) -> bool
    ensures { result ≡ is_word s }
{
    (s == 16) | (s == 32) | (s == 64)
}

// The width of a format's patterns.
pub fn pattern_width(f: u64) -> u64
    ensures { result ≡ pattern_width f }
{
    match f {
        2072 => 32,
        2869 => 64,
        _ => 79,
    }
}

fn only(ok: bool, s: u64) -> u64
    ensures { result ≡ when ok s }
{
    if ok { s } else { 0 }
}

fn extract_sort(s: u64, hi: u64, lo: u64) -> u64
    ensures { result ≡ when ((leb lo hi && ltb hi s) && is_bits s) (hi - lo + 1) }
{
    if lo <= hi && hi < s {
        only(is_bits(s), hi - lo + 1)
    } else {
        0
    }
}

fn concat_sort(sa: u16, sb: u16, c: u64) -> u64
    ensures { result ≡ when (((is_bits sa && is_bits sb) && leb (sa + sb) 80) && eqb c 0) (sa + sb) }
{
    let (sa, sb) = (u64::from(sa), u64::from(sb));
    only(
        is_bits(sa) & is_bits(sb) & (sa + sb <= 80) & (c == 0),
        sa + sb,
    )
}

// The sort of a node from its row and the sorts of its operands, or 0, as in the lent tables of sorts. A kind is a number, since a row is four words of a list that C lends, and any word is taken.
#[tactic(auto, unfolding(crate::specs::Sorts::sort_row))]
pub fn sort_of(k: u64, a: u64, b: u64, c: u64, xa: u16, xb: u16, xc: u16) -> u64
    ensures { result ≡ sort_row k a b c xa xb xc }
{
    let (sa, sb, sc) = (u64::from(xa), u64::from(xb), u64::from(xc));
    match k {
        1 => only(((b == 79) | (b == 16)) & (c == 0), b),
        2 | 3 => only(is_stored(b) & (c == 0), b),
        4 => only((a == 0) & (b == 0) & (c == 0), 16),
        5 => only((a <= 2) & (b == 0) & (c == 0), 1),
        6 => only(is_bits(c) & Wide { hi: b, lo: a }.fits(c), c),
        7 | 8 => only(is_bits(sa) & (sa == sb) & (c == 0), sb),
        9 => only(is_bits(sa) & (sa == sb) & (c == 0), 1),
        10 | 11 => only((sa == 1) & (sb == 1) & (c == 0), 1),
        12 => only((sa == 1) & (b == 0) & (c == 0), 1),
        13 => only((sa == 1) & is_bits(sb) & (sb == sc), sc),
        14 => extract_sort(sa, b, c),
        15 => concat_sort(xa, xb, c),
        16..=19 => only(is_float(sa) & (sa == sb) & (c <= 1), sb),
        20 | 21 => only(is_float(sa) & (sa == sb) & (c == 0), 1),
        22 => only(is_float(sa) & (b == 0) & (c == 0), 1),
        23 | 24 => only(is_float(sa) & (b <= 1) & (c == 0), sa),
        25 => only(is_float(c) & (sa == pattern_width(c)) & (b == 0), c),
        26 => only(is_float(sa) & (b == 0) & (c == 0), pattern_width(sa)),
        27 => only(is_float(sa) & (b <= 1) & is_word(c), c),
        28 => only(is_word(sa) & (b <= 1) & (c == 3904), c),
        29 => only(is_float(sa) & (b <= 1) & is_float(c), c),
        _ => 0,
    }
}
