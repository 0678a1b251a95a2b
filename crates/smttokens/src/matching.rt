// How much of a text stands at the front of another: from the place where what is before it ends to its own end, or only so far.
// The text and the place stay two parameters: the place goes back in the Result, of which Ok goes on and Err stops, and a cursor would have to say that beside.
ghost use Rattle.std.specs.Prelude.{[], ◌∷◌};
ghost use Rattle.writing.specs.Bytes.{decimal};
ghost use Rattle.smttokens.specs.Matches.{Extends};
ghost use Rattle.smttokens.specs.Follows.{Follows, front_laws};

use writing::Sink;

// One byte more.
pub(crate) fn one(x: &[u8], at: usize, b: u8) -> Result<usize, usize>
    ensures { Extends (b ∷ []) x.now at result }
{
    if at < x.len() && x[at] == b {
        Ok(at + 1)
    } else {
        Err(at)
    }
}

// The bytes of a text, one after the other.
pub(crate) fn all(x: &[u8], at: usize, text: &[u8]) -> Result<usize, usize>
    ensures { Extends text.now x.now at result }
{
    let mut end = at;
    for b in text {
        end = one(x, end, *b)?;
    }
    Ok(end)
}

// The front of a text as what takes text: where what was held against it ends, or how far it reaches where not all of it is there.
#[derive(Clone, Copy)]
pub(crate) struct Front<'a> {
    pub(crate) text: &'a [u8],
    pub(crate) end: Result<usize, usize>,
}

impl<'a> Sink for Front<'a> {
    ghost took = { Follows };

    ghost laws = { front_laws };

    fn put(&mut self, b: u8) {
        if let Ok(at) = self.end {
            self.end = one(self.text, at, b);
        }
    }

    fn all(&mut self, text: &[u8]) {
        if let Ok(at) = self.end {
            self.end = all(self.text, at, text);
        }
    }
}

// A number in decimal.
pub(crate) fn decimal(x: &[u8], at: usize, v: u64) -> Result<usize, usize>
    ensures { Extends (decimal v) x.now at result }
{
    let mut front = Front {
        text: x,
        end: Ok(at),
    };
    front.decimal(v);
    front.end
}
