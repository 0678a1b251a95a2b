// Texts of at most 32 bytes: trimming, letters without case, and the place on the stack that a text names.
#![tactic(auto)]

ghost use Rattle.std.specs.Prelude.{◌≡◌, ◌<◌};
ghost use Rattle.texts.specs.Bytes.{bytes_of, valid_of};
ghost use Rattle.texts.specs.Letters.{lower_of, blank_is, skip, cut, trim_of, same_letters};
ghost use Rattle.texts.specs.Places.{digits, number, signed, place_of};

// A text by value: its first `len` bytes.
// By value and of fixed memory, with a length beside: one over 32 is accepted, and refused with 3.
#[derive(Clone, Copy)]
pub struct Text {
    pub bytes: [u8; 32],
    pub len: usize,
}

impl Text {
    // The bytes that the text carries: all of them where its length is over 32.
    pub fn as_bytes(&self) -> &[u8]
        ensures { result.now ≡ bytes_of self.now }
    {
        self.bytes.get(..self.len).unwrap_or(&self.bytes)
    }

    // Whether it is within its 32 bytes and has no byte over 127.
    pub fn is_valid(&self) -> bool
        ensures { result ≡ valid_of self.now }
    {
        self.len <= 32 && self.as_bytes().iter().all(u8::is_ascii)
    }
}

// A capital letter's small one.
pub fn lower(b: u8) -> u8
    ensures { result ≡ lower_of b }
{
    b.to_ascii_lowercase()
}

// Whether a trim takes the byte away.
pub fn blank(b: u8) -> bool
    ensures { result ≡ blank_is b }
{
    matches!(b, 9..=13 | b' ')
}

// The text without the blanks at its front. Not the library's trim_ascii_start: byte 11 is a blank here, and none there.
fn trim_start(mut s: &[u8]) -> &[u8]
    ensures { result.now ≡ skip s.now }
{
    while let [first, rest @ ..] = s {
        if !blank(*first) {
            break;
        }
        s = rest;
    }
    s
}

// The text without the blanks at its end.
fn trim_end(mut s: &[u8]) -> &[u8]
    ensures { result.now ≡ cut s.now }
{
    while let [rest @ .., last] = s {
        if !blank(*last) {
            break;
        }
        s = rest;
    }
    s
}

// The text without the blanks at both ends.
pub fn trim(s: &[u8]) -> &[u8]
    ensures { result.now ≡ trim_of s.now }
{
    trim_end(trim_start(s))
}

// Whether two texts differ at most in the case of their letters: by lower, as the definition says it, since of slices the library has no such test.
pub fn eq_ignore_ascii_case(s: &[u8], t: &[u8]) -> bool
    ensures { result ≡ same_letters s.now t.now }
{
    s.len() == t.len() && s.iter().zip(t).all(|(x, y)| lower(*x) == lower(*y))
}

// What is left after some digits of value `from`: further digits, then the closing bracket at the end.
fn digits_of(s: &[u8], from: u32) -> Option<u32>
    requires { from < 10 }
    ensures { result ≡ digits from s.now }
{
    let mut v = from;
    let mut left = s;
    while let [b, rest @ ..] = left {
        if 7 < v {
            return None;
        }
        if !b.is_ascii_digit() {
            return (*b == b')' && rest.is_empty()).then_some(v);
        }
        v = v * 10 + u32::from(*b - b'0');
        left = rest;
    }
    None
}

// One digit at least.
fn number_of(s: &[u8]) -> Option<u32>
    ensures { result ≡ number s.now }
{
    match s {
        [b, rest @ ..] if b.is_ascii_digit() => digits_of(rest, u32::from(*b - b'0')),
        _ => None,
    }
}

// An optional plus sign, then the number.
fn signed_of(s: &[u8]) -> Option<u32>
    ensures { result ≡ signed s.now }
{
    number_of(s.strip_prefix(b"+").unwrap_or(s))
}

// The place on the stack that a text names.
pub fn slot_index(s: &[u8]) -> Option<u32>
    ensures { result ≡ place_of s.now }
{
    let [s, t, open, rest @ ..] = trim(s) else {
        return None;
    };
    if lower(*s) == b's' && lower(*t) == b't' && *open == b'(' {
        return signed_of(rest);
    }
    None
}
