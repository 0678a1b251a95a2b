// The calls on a root's text: a number of the manual, section 7, back, and what goes with it in the lent word.
ghost use Rattle.export.specs.Texts.{WritesText, ReadsText};

use answers::refusal::{count_or_place, number_of};

// The text of a root of the first `count` nodes; the first word of `out` is the number of its bytes, the first node without a sort, or 0.
pub fn x87_smt_write(
    nodes: &[u64],
    count: usize,
    root: usize,
    text: &mut [u8],
    out: &mut [u64],
) -> u32
    ensures { WritesText nodes.now count root text.old out.old result text.new out.new }
{
    if 1 <= out.len() {
        let w = smtwriter::write(nodes, count, root, text);
        out[0] = count_or_place(&w) as u64;
        return number_of(&w);
    }
    10
}

// The nodes that a text says, from number 0 on; the first word of `out` is their number, the place from which no text can follow, or 0.
pub fn x87_smt_read(text: &[u8], nodes: &mut [u64], out: &mut [u64]) -> u32
    ensures { ReadsText text.now nodes.old out.old result nodes.new out.new }
{
    if 1 <= out.len() {
        let t = smtreader::read(text, nodes);
        out[0] = count_or_place(&t) as u64;
        return number_of(&t);
    }
    10
}
