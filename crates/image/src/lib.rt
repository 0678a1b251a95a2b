// The 80-bit image of a 79-bit pattern, on ten lent bytes, low byte first.
#![tactic(auto)]

ghost use Rattle.std.specs.Prelude.{◌≡◌, ◌++◌, ℕ, ◌≤◌, ◌<◌, ◌^◌, length, take, drop};
ghost use Rattle.words.specs.Wide.{val, wide_of};
ghost use Rattle.words.specs.Bytes.{little_endian, bytes_of};
ghost use Rattle.image.specs.Layout.{integer_bit, image_of, pattern_in};
ghost use Rattle.image.specs.Answers.{read_of, write_of, image_after};

use words::Wide;
use words::bytes::le;

// Why an image is not read, or not written.
#[derive(Clone, Copy, Debug, PartialEq, Eq)]
pub enum ImageError {
    // The pattern is over 79 bits.
    TooWide,
    // The image is under ten bytes.
    Short,
}

// The integer bit that goes with an exponent.
fn integer_bit(exponent: Wide) -> Wide
    ensures { val result ≡ integer_bit (val exponent) }
{
    Wide::from(u64::from(exponent != Wide::from(0)))
}

// The image of a pattern.
fn image_of(p: Wide) -> Wide
    requires { val p < 2 ^ 79 }
    ensures { val result ≡ image_of (val p) }
{
    let bit = integer_bit(p.extract(77, 63));
    let top = (p >> 63).concat(bit, 1);
    top.concat(p, 63)
}

// The pattern of an image that has a number, and else the free one.
fn pattern(v: Wide, free: Wide) -> Wide
    ensures { result ≡ wide_of (pattern_in (val v) (val free)) }
{
    let bit = integer_bit(v.extract(78, 64));
    if v.extract(63, 63) == bit {
        (v >> 64).concat(v, 63)
    } else {
        free
    }
}

// The number of ten bytes.
fn number(image: &[u8]) -> Wide
    requires { 10 ≤ length image.now }
    ensures { val result ≡ little_endian (take 10 image.now) }
{
    Wide {
        hi: le::<2>(image, 8),
        lo: le::<8>(image, 0),
    }
}

// The ten bytes of a number. Byte by byte, as the definition says them: to_le_bytes would be two parts of two words.
fn put(image: &mut [u8], v: Wide)
    requires { 10 ≤ length image.old }
    ensures { image.new ≡ bytes_of 10 (val v) ++ drop 10 image.old }
{
    let mut rest = v;
    for byte in &mut image[..10] {
        *byte = (rest.lo & 0xff) as u8;
        rest = rest >> 8;
    }
}

// The pattern of the first ten bytes, or the free pattern where they have no number.
pub fn read(image: &[u8], free: Wide) -> Result<Wide, ImageError>
    ensures { result ≡ read_of image.now free }
{
    if image.len() < 10 {
        return Err(ImageError::Short);
    }
    if !free.fits(79) {
        return Err(ImageError::TooWide);
    }
    Ok(pattern(number(image), free))
}

// The image of a pattern into the first ten bytes.
pub fn write(image: &mut [u8], p: Wide) -> Result<(), ImageError>
    ensures { (result ≡ write_of image.old p) × (image.new ≡ image_after image.old p) }
{
    if image.len() < 10 {
        return Err(ImageError::Short);
    }
    if !p.fits(79) {
        return Err(ImageError::TooWide);
    }
    put(image, image_of(p));
    Ok(())
}
