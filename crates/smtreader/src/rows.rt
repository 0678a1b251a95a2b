// The nodes that are there, in order, as rows of four words.
ghost use Rattle.std.specs.Prelude.{◌≡◌, cond, [], ◌∷◌, ◌+◌, ◌≤◌, leb, length, get_or};
ghost use Rattle.std.proofs.lemmas.List.Edits.{sets};
ghost use Rattle.smtgrammar.specs.Rows.{there};
ghost use Rattle.smtreader.specs.Inside.{tables_of};
ghost use Rattle.smtreader.specs.Ranks.{Ranks, bare, row_of, Fit, Written};

use crate::columns::Columns;
use smtchoices::{kind_at, sort_at};
use smtgrammar::LIMIT;

// Operand j of a node with so many operands by its rank, any other field as it is.
fn ranked(ranks: &[u16], arity: u64, j: u64, v: u64) -> u64
    ensures { result ≡ cond (leb j arity) (get_or ranks.now v 0) v }
{
    if j <= arity {
        sort_at(ranks, v as usize) as u64
    } else {
        v
    }
}

// Four words from a place on. Four stores, as the promise has them, so that no proof is owed.
fn put(nodes: &mut [u64], at: usize, kind: u64, a: u64, b: u64, c: u64)
    requires { at + 4 ≤ length nodes.old }
    ensures { nodes.new ≡ sets nodes.old at (kind ∷ a ∷ b ∷ c ∷ []) }
{
    nodes[at] = kind;
    nodes[at + 1] = a;
    nodes[at + 2] = b;
    nodes[at + 3] = c;
}

impl Columns<'_> {
    // Node i is there.
    fn is_there(&self, i: usize) -> bool
        ensures { result ≡ there (tables_of self.now) i }
    {
        kind_at(self.kinds, i) != 0
    }

    // How many nodes below each number are there, in the column of the sorts, which are not needed any more.
    fn rank(&mut self)
        requires { length self.old.sorts.now ≤ 65536 }
        ensures ranks { Ranks (bare (tables_of self.old)) self.new.sorts.now }
        ensures long { length self.new.sorts.now ≡ length self.old.sorts.now }
        ensures same { bare (tables_of self.new) ≡ bare (tables_of self.old) }
    {
        let mut n: usize = 0;
        for i in 0..self.sorts.len() {
            self.sorts[i] = n as u16;
            if self.is_there(i) {
                n += 1;
            }
        }
    }

    // The first field of node i, 0 where there is none. The tables of smttokens have the same: two structs, one line each.
    fn first_at(&self, i: usize) -> u64
        ensures { result ≡ get_or self.now.firsts.now i 0 }
    {
        self.firsts.get(i).copied().unwrap_or(0)
    }

    // The row of node i from a place on, where the column of the sorts holds the ranks.
    fn row(&self, nodes: &mut [u64], at: usize, i: usize)
        requires { at + 4 ≤ length nodes.old }
        ensures { nodes.new ≡ sets nodes.old at (row_of (bare (tables_of self.now)) self.now.sorts.now i) }
    {
        let k = kind_at(self.kinds, i) as u64;
        let n = needs::arity(k);
        let a = ranked(self.sorts, n, 1, self.first_at(i));
        let b = ranked(self.sorts, n, 2, sort_at(self.seconds, i) as u64);
        let c = ranked(self.sorts, n, 3, sort_at(self.thirds, i) as u64);
        put(nodes, at, k, a, b, c);
    }

    // The rows of all nodes that are there, at the front.
    fn write(&self, nodes: &mut [u64])
        requires { Ranks (bare (tables_of self.now)) self.now.sorts.now × Fit (bare (tables_of self.now)) (length self.now.sorts.now) (length nodes.old) }
        ensures { Written (bare (tables_of self.now)) nodes.old nodes.new }
    {
        let mut at = 0;
        for i in 0..self.kinds.len().min(LIMIT) {
            if self.is_there(i) {
                self.row(nodes, at, i);
                at += 4;
            }
        }
    }

    // .. with the ranks worked out beforehand.
    pub(crate) fn rows(&mut self, nodes: &mut [u64])
        requires { (length self.old.sorts.now ≤ 65536) × Fit (bare (tables_of self.old)) (length self.old.sorts.now) (length nodes.old) }
        ensures { Written (bare (tables_of self.old)) nodes.old nodes.new }
    {
        self.rank();
        self.write(nodes);
    }
}
