// Which sorts the nodes below a number have.
ghost use Rattle.std.specs.Prelude.{◌≡◌};
ghost use Rattle.smtgrammar.specs.Present.{below, some_float, some_word, some_from, joins, source, suits};

use crate::Tables;
use smtgrammar::LIMIT;

impl Tables<'_> {
    // Some node below n has the sort s.
    pub(crate) fn below(&self, s: usize, n: usize) -> bool
        ensures { result ≡ below self.now.lowest.now s n }
    {
        self.lowest.get(s).map_or(LIMIT, |m| *m as usize) < n
    }

    // .. that of a float.
    pub(crate) fn some_float(&self, n: usize) -> bool
        ensures { result ≡ some_float self.now.lowest.now n }
    {
        self.below(2072, n) || self.below(2869, n) || self.below(3904, n)
    }

    // .. that of a whole number.
    pub(crate) fn some_word(&self, n: usize) -> bool
        ensures { result ≡ some_word self.now.lowest.now n }
    {
        self.below(16, n) || self.below(32, n) || self.below(64, n)
    }

    // .. a width of u or more.
    pub(crate) fn some_from(&self, u: usize, n: usize) -> bool
        ensures { result ≡ some_from self.now.lowest.now u n }
    {
        (u..81).any(|w| self.below(w, n))
    }

    // Two widths that add up to s.
    pub(crate) fn joins(&self, s: usize, n: usize) -> bool
        ensures { result ≡ joins self.now.lowest.now s n }
    {
        (1..s).any(|w| self.below(w, n) && self.below(s - w, n))
    }

    // A float of format f can be made of a node below n.
    pub(crate) fn source(&self, f: usize, n: usize) -> bool
        ensures { result ≡ source self.now.lowest.now f n }
    {
        let w = sorts::pattern_width(f as u64) as usize;
        self.below(w, n) || self.some_float(n) || f == 3904 && self.some_word(n)
    }
}

// A float of format f can be made of a node of sort s.
pub(crate) fn suits(f: usize, s: usize) -> bool
    ensures { result ≡ suits f s }
{
    let w = sorts::pattern_width(f as u64) as usize;
    s == w || sorts::is_float(s as u64) || f == 3904 && sorts::is_word(s as u64)
}
