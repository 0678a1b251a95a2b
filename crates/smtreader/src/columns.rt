// The nodes so far, as lent columns, and what is sought in them and added to them.
ghost use Rattle.std.specs.Prelude.{◌≡◌};
ghost use Rattle.smtgrammar.specs.Next.{gap_from, owed_from, due_from, entered};
ghost use Rattle.smtreader.specs.Inside.{tables_of, Rowed};

use smtchoices::{kind_at, sort_at};
use smtgrammar::LIMIT;

// By number the kind, the three fields and the sort; by sort the lowest number that has it. Columns and no array of structs: that of the sorts serves for the ranks, and an array of structs would be cleared whole.
#[derive(Drop)]
pub(crate) struct Columns<'a> {
    pub(crate) kinds: &'a mut [u8],
    pub(crate) firsts: &'a mut [u64],
    pub(crate) seconds: &'a mut [u16],
    pub(crate) thirds: &'a mut [u16],
    pub(crate) sorts: &'a mut [u16],
    pub(crate) lowest: &'a mut [u16],
}

#[tactic(auto, unfolding(smtgrammar::specs::Next::gap_from, smtgrammar::specs::Next::owed_from, smtgrammar::specs::Next::due_from, smtgrammar::specs::Next::entered))]
impl Columns<'_> {
    // The lowest number from i on that is not there yet.
    pub(crate) fn gap_from(&self, i: usize) -> usize
        ensures { result ≡ gap_from (tables_of self.now) i }
    {
        (i..LIMIT)
            .find(|j| kind_at(self.kinds, *j) == 0)
            .unwrap_or(LIMIT)
    }

    // .. that is obliged and not there yet.
    pub(crate) fn owed_from(&self, top: usize, i: usize) -> usize
        ensures { result ≡ owed_from (tables_of self.now) top i }
    {
        (i..top)
            .find(|j| kind_at(self.kinds, *j) == 0 && sort_at(self.sorts, *j) != 0)
            .unwrap_or(LIMIT)
    }

    // .. that is an FpToIeeeBv.
    pub(crate) fn due_from(&self, top: usize, i: usize) -> usize
        ensures { result ≡ due_from (tables_of self.now) top i }
    {
        (i..top)
            .find(|j| kind_at(self.kinds, *j) == 26)
            .unwrap_or(LIMIT)
    }

    // Node n gets its row and its sort.
    pub(crate) fn entered(&mut self, n: usize, k: usize, a: usize, b: usize, c: usize, s: usize)
        requires { Rowed (tables_of self.old) n k b c s }
        ensures { tables_of self.new ≡ entered (tables_of self.old) n k a b c s }
    {
        self.kinds[n] = k as u8;
        self.firsts[n] = a as u64;
        self.seconds[n] = b as u16;
        self.thirds[n] = c as u16;
        self.sorts[n] = s as u16;
        self.lowest[s] = self.lowest[s].min(n as u16);
    }
}
