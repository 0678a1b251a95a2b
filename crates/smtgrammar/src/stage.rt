// Which choice comes next in a line: a line takes any number, of which a larger one stands for the last. So they are no enum: ok_at, take and size_at are public and take any, and the definitions compare them.

// What begins a line.
pub const LINE: usize = 0;

// A declaration: its node, the kind of that, its number, one digit of it, and its width.
pub const DECLARED: usize = 1;

pub const KIND: usize = 2;

pub const NUMBER: usize = 3;

pub const DIGIT: usize = 4;

pub const WIDTH: usize = 5;

// A definition: its node, the sort of that, what opens its term, a first operand or a word, and operands alone.
pub const DEFINED: usize = 6;

pub const SORT: usize = 7;

pub const OPENING: usize = 8;

pub const FIRST: usize = 9;

pub const OPERAND_0: usize = 10;

pub const OPERAND_1: usize = 11;

pub const OPERAND_2: usize = 12;

// The places of an Extract, and one digit of a constant.
pub const PLACES: usize = 13;

pub const BIT: usize = 14;

// What is left of an assertion.
pub const ASSERTED: usize = 15;
