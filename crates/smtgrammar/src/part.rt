// The parts of a text, in their order, and what begins a line of each. Numbers, as the stages are.
pub const DECLARES: usize = 0;

pub const DEFINES: usize = 1;

pub const ASSERTS: usize = 2;
