// The calls on images and lists of nodes: a number of the manual, section 7, back, and what goes with it in the lent words.
ghost use Rattle.std.specs.Prelude.{◌≡◌};
ghost use Rattle.export.specs.Values.{pattern_words, ReadsImage, WritesImage, ChecksNodes, EvaluatesNodes};

use answers::refusal::{Refusal, number_of, place_of};
use image::ImageError;
use words::Wide;

fn pattern_words(r: Result<Wide, ImageError>) -> [u64; 2]
    ensures { result ≡ pattern_words r }
{
    match r {
        Ok(p) => [p.lo, p.hi],
        Err(e) => [e.place() as u64, 0],
    }
}

// The pattern of an image of ten bytes, or the free one: two words, low first.
pub fn x87_image_read(image: &[u8], low: u64, high: u64, out: &mut [u64]) -> u32
    ensures { ReadsImage image.now low high out.old result out.new }
{
    if 2 <= out.len() {
        let r = image::read(image, Wide { hi: high, lo: low });
        crate::lay(out, &pattern_words(r));
        return number_of(&r);
    }
    10
}

// The ten bytes of a pattern's image.
pub fn x87_image_write(image: &mut [u8], low: u64, high: u64) -> u32
    ensures { WritesImage image.old low high result image.new }
{
    number_of(&image::write(image, Wide { hi: high, lo: low }))
}

// The sort check of the first `count` nodes; the first word of `out` is the first node without a sort, or 0.
pub fn x87_check(nodes: &[u64], count: usize, out: &mut [u64]) -> u32
    ensures { ChecksNodes nodes.now count out.old result out.new }
{
    if 1 <= out.len() {
        let r = evaluator::check(nodes, count);
        out[0] = place_of(&r) as u64;
        return number_of(&r);
    }
    10
}

// The values of the first `count` nodes, two words each; the first word of `out` is the node that is to blame, or 0.
pub fn x87_evaluate(
    nodes: &[u64],
    count: usize,
    given: &[u64],
    column: &mut [u64],
    out: &mut [u64],
) -> u32
    ensures { EvaluatesNodes nodes.now count given.now column.old out.old result column.new out.new }
{
    if 1 <= out.len() {
        let r = evaluator::evaluate(nodes, count, given, column);
        out[0] = place_of(&r) as u64;
        return number_of(&r);
    }
    10
}
