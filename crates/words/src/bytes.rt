// Numbers at a place of lent bytes, low byte first. A byte past the end counts as 0.
ghost use Rattle.std.specs.Prelude.{◌≡◌, ◌<◌, ◌^◌, min};
ghost use Rattle.words.specs.Bytes.{number_in};

fn byte(s: &[u8], at: usize) -> u64
    ensures { (result ≡ number_in s.now at 1) × (result < 256) }
{
    s.get(at).map_or(0, |b| u64::from(*b))
}

// The number of N bytes, of which a u64 holds eight.
pub fn le<const N: usize>(s: &[u8], at: usize) -> u64
    ensures { (result ≡ number_in s.now at (min N 8)) × (result < 256 ^ N) }
{
    if s.len() <= at {
        return 0;
    }
    let mut number = 0;
    for i in (0..N.min(8)).rev() {
        number = byte(s, at + i) + 256 * number;
    }
    number
}
