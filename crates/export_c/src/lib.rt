// What C and Rust call: the calls of `export` under their own names, each with the promise that it has there.
#![tactic(auto)]

ghost use Rattle.records.specs.Format.{taken_at};
ghost use Rattle.export.specs.Answers.{Classifies, Reasons, Affects, ReadsRecord};
ghost use Rattle.export.specs.Steps.{Steps, called_of, stepped_of};
ghost use Rattle.export.specs.Values.{ReadsImage, WritesImage, ChecksNodes, EvaluatesNodes};
ghost use Rattle.export.specs.Texts.{WritesText, ReadsText};

// Classifies the instruction that stands in the first 177 bytes, and tells its form's eight words.
#[unsafe(no_mangle)]
pub extern "C" fn x87_classify(flat: &[u8], out: &mut [u64]) -> u32
    ensures { Classifies flat.now out.old result out.new }
{
    export::x87_classify(flat, out)
}

// Tells why the instruction that stands in the first 177 bytes is declined; the answer is that of `x87_classify`.
#[unsafe(no_mangle)]
pub extern "C" fn x87_why(flat: &[u8], out: &mut [u64]) -> u32
    ensures { Reasons flat.now out.old result out.new }
{
    export::x87_why(flat, out)
}

// Tells the seven flags of what the instruction touches.
#[unsafe(no_mangle)]
pub extern "C" fn x87_effect(flat: &[u8], out: &mut [u64]) -> u32
    ensures { Affects flat.now out.old result out.new }
{
    export::x87_effect(flat, out)
}

// Reads the record at a place: tells the next place or the offending one and whether a record was read, and writes its instruction.
#[unsafe(no_mangle)]
pub extern "C" fn x87_read_record(input: &[u8], at: usize, flat: &mut [u8], out: &mut [u64]) -> u32
    ensures { ReadsRecord (taken_at input.now at) flat.old out.old result flat.new out.new }
{
    export::x87_read_record(input, at, flat, out)
}

// Lifts the instruction that stands in the first 177 bytes, and tells the detail of a decline.
#[unsafe(no_mangle)]
pub extern "C" fn x87_lift(
    flat: &[u8],
    state: &mut [u64],
    nodes: &mut [u64],
    statements: &mut [u64],
    out: &mut [u64],
) -> u32
    ensures { Steps 1 (called_of flat.now state.old nodes.old statements.old) state.old nodes.old statements.old out.old result state.new nodes.new statements.new out.new }
{
    export::x87_lift(flat, state, nodes, statements, out)
}

// Reads the record at a place and lifts its instruction.
#[unsafe(no_mangle)]
pub extern "C" fn x87_lift_record(
    input: &[u8],
    at: usize,
    state: &mut [u64],
    nodes: &mut [u64],
    statements: &mut [u64],
    out: &mut [u64],
) -> u32
    ensures { Steps 3 (stepped_of (taken_at input.now at) at state.old nodes.old statements.old) state.old nodes.old statements.old out.old result state.new nodes.new statements.new out.new }
{
    export::x87_lift_record(input, at, state, nodes, statements, out)
}

// The pattern of an image of ten bytes, or the free one: two words, low first.
#[unsafe(no_mangle)]
pub extern "C" fn x87_image_read(image: &[u8], low: u64, high: u64, out: &mut [u64]) -> u32
    ensures { ReadsImage image.now low high out.old result out.new }
{
    export::values::x87_image_read(image, low, high, out)
}

// The ten bytes of a pattern's image.
#[unsafe(no_mangle)]
pub extern "C" fn x87_image_write(image: &mut [u8], low: u64, high: u64) -> u32
    ensures { WritesImage image.old low high result image.new }
{
    export::values::x87_image_write(image, low, high)
}

// The sort check of the first `count` nodes; the first word of `out` is the first node without a sort, or 0.
#[unsafe(no_mangle)]
pub extern "C" fn x87_check(nodes: &[u64], count: usize, out: &mut [u64]) -> u32
    ensures { ChecksNodes nodes.now count out.old result out.new }
{
    export::values::x87_check(nodes, count, out)
}

// The values of the first `count` nodes, two words each; the first word of `out` is the node that is to blame, or 0.
#[unsafe(no_mangle)]
pub extern "C" fn x87_evaluate(
    nodes: &[u64],
    count: usize,
    given: &[u64],
    column: &mut [u64],
    out: &mut [u64],
) -> u32
    ensures { EvaluatesNodes nodes.now count given.now column.old out.old result column.new out.new }
{
    export::values::x87_evaluate(nodes, count, given, column, out)
}

// The text of a root of the first `count` nodes; the first word of `out` is the number of its bytes, the first node without a sort, or 0.
#[unsafe(no_mangle)]
pub extern "C" fn x87_smt_write(
    nodes: &[u64],
    count: usize,
    root: usize,
    text: &mut [u8],
    out: &mut [u64],
) -> u32
    ensures { WritesText nodes.now count root text.old out.old result text.new out.new }
{
    export::smt::x87_smt_write(nodes, count, root, text, out)
}

// The nodes that a text says, from number 0 on; the first word of `out` is their number, the place from which no text can follow, or 0.
#[unsafe(no_mangle)]
pub extern "C" fn x87_smt_read(text: &[u8], nodes: &mut [u64], out: &mut [u64]) -> u32
    ensures { ReadsText text.now nodes.old out.old result nodes.new out.new }
{
    export::smt::x87_smt_read(text, nodes, out)
}
