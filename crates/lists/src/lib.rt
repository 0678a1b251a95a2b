// Rows of four words in lent lists, the state of a lift, and its stack.
#![tactic(auto)]

ghost use Rattle.std.specs.Prelude.{◌≡◌, [], ◌∷◌, ◌<◌};
ghost use Rattle.lists.specs.Rows.{row, wrote, room_of};
ghost use Rattle.lists.specs.Steps.{Does};
ghost use Rattle.lists.specs.Nodes.{node_of, statement_of, fresh_of, temporary_of};
ghost use Rattle.lists.specs.Stack.{fresh, havoc_of, grown, bottom_of, ensure_of, slot_of, kept, read_of, write_of, push_of, pushed_of, drop_top_of, pop_of, exchange_of};
ghost use Rattle.lists.specs.Valid.{sound_of, all_sound, valid_of};

// The bits of a place's pattern, and of the status word.
pub const SLOT_BITS: u32 = 79;

pub const STATUS_BITS: u32 = 16;

// The kinds of the nodes that the state counts, and of a constant (the manual, section 4). Numbers, since node is public and takes any.
const INPUT: u32 = 1;

const TEMPORARY: u32 = 2;

const CONSTANT: u64 = 6;

// What a lift works on: the lent nodes and statements, and its state.
#[derive(Drop)]
pub struct LiftCtx<'a> {
    pub nodes: &'a mut [u64],
    pub statements: &'a mut [u64],
    pub state: State,
}

// The state of a lift: the stack's places, of which place 0 is the top and the first `depth` are used, and the counts of what was added.
// Of fixed memory, as the 13 words that C hands in have it: a depth over 8 is accepted, and refused as invalid.
#[derive(Clone, Copy)]
pub struct State {
    pub slots: [u32; 8],
    pub depth: u32,
    pub nodes: u32,
    pub statements: u32,
    pub inputs: u32,
    pub temporaries: u32,
}

// Why an instruction that is modelled is declined all the same: a push found all places used.
#[derive(Clone, Copy, PartialEq, Eq)]
pub enum X87Error {
    StackOverflow,
}

// How many rows so many words have room for.
pub fn room(words: usize) -> u32
    ensures { result ≡ room_of words }
{
    (words / 4).min(65535) as u32
}

// Lays one row in at row number `at`, if there is room for it.
fn put(list: &mut [u64], at: u32, kind: u64, a: u64, b: u64, c: u64)
    ensures { list.new ≡ wrote list.old (row at kind a b c ∷ []) }
{
    let n = at as usize;
    if n < list.len() / 4 {
        list[4 * n..4 * n + 4].copy_from_slice(&[kind, a, b, c]);
    }
}

impl LiftCtx<'_> {
    // One more node whose fields are words.
    fn wide(&mut self, kind: u64, a: u64, b: u64, c: u64) -> u32
        ensures { Does (node_of self.old.state kind a b c) self.old self.new result }
    {
        let at = self.state.nodes;
        put(self.nodes, at, kind, a, b, c);
        self.state.nodes = at.saturating_add(1);
        at
    }

    // One more node.
    pub fn node(&mut self, kind: u32, a: u32, b: u32, c: u32) -> u32
        ensures { Does (node_of self.old.state kind a b c) self.old self.new result }
    {
        self.wide(kind as u64, a as u64, b as u64, c as u64)
    }

    // One more constant: its low word, its high word, and its bits.
    pub fn constant(&mut self, low: u64, high: u64, bits: u32) -> u32
        ensures { Does (node_of self.old.state 6 low high bits) self.old self.new result }
    {
        self.wide(CONSTANT, low, high, bits as u64)
    }

    // One more statement.
    pub fn statement(&mut self, kind: u64, a: u64, b: u64, c: u64)
        ensures { Does (statement_of self.old.state kind a b c) self.old self.new 0 }
    {
        let at = self.state.statements;
        put(self.statements, at, kind, a, b, c);
        self.state.statements = at.saturating_add(1);
    }

    // One more input: a place's pattern, or a free status word, from one counter.
    pub fn fresh(&mut self, bits: u32) -> u32
        ensures { Does (fresh_of self.old.state bits) self.old self.new result }
    {
        let v = self.node(INPUT, self.state.inputs, bits, 0);
        self.state.inputs = self.state.inputs.saturating_add(1);
        v
    }

    // The next temporary. As fresh, of another counter: one over both would be lent a counter beside self.
    pub fn temporary(&mut self, bits: u32) -> u32
        ensures { Does (temporary_of self.old.state bits) self.old self.new result }
    {
        let v = self.node(TEMPORARY, self.state.temporaries, bits, 0);
        self.state.temporaries = self.state.temporaries.saturating_add(1);
        v
    }

    // One more input at the bottom.
    fn bottom(&mut self)
        ensures { Does (bottom_of self.old.state) self.old self.new 0 }
    {
        let v = self.fresh(SLOT_BITS);
        self.state.grow(v);
    }

    // The inputs that are missing down to place `index`.
    pub fn ensure(&mut self, index: u32)
        ensures { Does (ensure_of self.old.state index) self.old self.new 0 }
    {
        if index < 8 {
            // The Rust's own loop: it counts nothing by hand.
            while self.state.depth <= index {
                self.bottom();
            }
        }
    }

    pub fn read(&mut self, index: u32) -> u32
        ensures { Does (read_of self.old.state index) self.old self.new result }
    {
        self.ensure(index);
        self.state.slot(index)
    }

    pub fn write(&mut self, index: u32, value: u32)
        ensures { Does (write_of self.old.state index value) self.old self.new 0 }
    {
        self.ensure(index);
        self.state.keep(index, value);
    }

    pub fn pop(&mut self) -> u32
        ensures { Does (pop_of self.old.state) self.old self.new result }
    {
        let top = self.read(0);
        self.state.drop_top();
        top
    }

    pub fn exchange(&mut self, index: u32)
        ensures { Does (exchange_of self.old.state index) self.old self.new 0 }
    {
        let top = self.read(0);
        let other = self.read(index);
        self.write(0, other);
        self.write(index, top);
    }
}

impl State {
    // The state at the start.
    pub fn new() -> State
        ensures { result ≡ fresh }
    {
        State {
            slots: [0; 8],
            depth: 0,
            nodes: 0,
            statements: 0,
            inputs: 0,
            temporaries: 0,
        }
    }

    // Forgets every place.
    pub fn havoc(&mut self)
        ensures { self.new ≡ havoc_of self.old }
    {
        self.slots = [0; 8];
        self.depth = 0;
    }

    // The node `at` below all used places.
    fn grow(&mut self, at: u32)
        ensures { self.new ≡ grown self.old at }
    {
        if self.depth < 8 {
            self.slots[self.depth as usize] = at;
            self.depth += 1;
        }
    }

    // The node at a place.
    fn slot(&self, index: u32) -> u32
        ensures { result ≡ slot_of self.now index }
    {
        if index < 8 {
            self.slots[index as usize]
        } else {
            0
        }
    }

    // Another node at a place.
    fn keep(&mut self, index: u32, value: u32)
        ensures { self.new ≡ kept self.old index value }
    {
        if index < 8 {
            self.slots[index as usize] = value;
        }
    }

    // One more place on top; a full stack is cleared instead.
    pub fn push(&mut self, value: u32) -> Result<(), X87Error>
        ensures { (self.new ≡ push_of self.old value) × (result ≡ pushed_of self.old) }
    {
        if 8 <= self.depth {
            self.havoc();
            return Err(X87Error::StackOverflow);
        }
        let [a, b, c, d, e, f, g, _] = self.slots;
        self.slots = [value, a, b, c, d, e, f, g];
        self.depth += 1;
        Ok(())
    }

    // Forgets the top, unread.
    pub fn drop_top(&mut self)
        ensures { self.new ≡ drop_top_of self.old }
    {
        let [_, a, b, c, d, e, f, g] = self.slots;
        self.slots = [a, b, c, d, e, f, g, 0];
        self.depth = self.depth.saturating_sub(1);
    }

    // Whether a place is as a valid state has it.
    fn sound(&self, i: u32) -> bool
        requires { i < 8 }
        ensures { result ≡ sound_of self.now i }
    {
        let x = self.slots[i as usize];
        if i < self.depth {
            x < self.nodes
        } else {
            x == 0
        }
    }

    // Whether all eight places are.
    fn all_sound(&self) -> bool
        ensures { result ≡ all_sound self.now 8 }
    {
        let mut all = true;
        for i in 0..8 {
            all &= self.sound(i);
        }
        all
    }

    // Whether a state is valid, over lists with room for so many nodes and statements.
    pub fn valid(&self, nodes: u32, statements: u32) -> bool
        ensures { result ≡ valid_of self.now nodes statements }
    {
        let sum = self.inputs as u64 + self.temporaries as u64;
        (self.depth <= 8)
            & self.all_sound()
            & (sum <= self.nodes as u64)
            & (self.nodes <= nodes)
            & (self.statements <= statements)
    }
}
