// The grammar that the reader of SMT-LIB text follows: what is known in the middle of a text, definitions and laws.
#![tactic(auto)]

pub mod part;
pub mod stage;

// Numbers of nodes are below the limit, which stands for 'none' as well, and is no Option: the definitions compare it with numbers, and ok_at takes any.
pub const LIMIT: usize = 65535;

// Between two lines.
#[derive(Clone, Copy)]
pub struct Place {
    // The part of the text that has begun.
    pub part: usize,
    // The first number behind the declared ones.
    pub top: usize,
    // The lowest number that can still be defined, and the next one that is not declared.
    pub gap: usize,
    pub next: usize,
    // The lowest number that is obliged to be a float and is not there yet, or none.
    pub owed: usize,
    // The next FpToIeeeBv to assert, or none.
    pub due: usize,
    // How many nodes there are.
    pub count: usize,
}

impl Place {
    // Nothing has been read.
    pub const START: Place = Place {
        part: part::DECLARES,
        top: 0,
        gap: 0,
        next: 1,
        owed: LIMIT,
        due: LIMIT,
        count: 0,
    };
}

// In a line.
#[derive(Clone, Copy)]
pub struct Line {
    // Which choice comes next.
    pub stage: usize,
    // The node that the line is about, its kind and its sort, as far as they are read.
    pub node: usize,
    pub kind: usize,
    pub sort: usize,
    // Its first two operands; its number; the two words of a constant, low first.
    pub a: usize,
    pub b: usize,
    // Its rounding, or the high place of an Extract.
    pub r: usize,
    // The digits that are left; of a number, whether there was one.
    pub left: usize,
    // The lowest number behind it that can be defined.
    pub after: usize,
}

impl Line {
    // No line has begun.
    pub const NONE: Line = Line {
        stage: stage::LINE,
        node: 0,
        kind: 0,
        sort: 0,
        a: 0,
        b: 0,
        r: 0,
        left: 0,
        after: 0,
    };
}
