// What a call tells that refuses: a number of the manual, section 7, and the node or place to blame.
ghost use Rattle.std.specs.Prelude.{◌≡◌, ℕ};
ghost use Rattle.answers.specs.Refusal.{told_of, count_or};

pub trait Refusal {
    ghost number: { Self → ℕ };

    ghost place: { Self → ℕ };

    fn number(&self) -> u32
        ensures { result ≡ number self.now };

    // 0 where there is none.
    fn place(&self) -> usize
        ensures { result ≡ place self.now };
}

// The number of a call's answer: 0 where it did not refuse.
pub fn number_of<T, E: Refusal>(r: &Result<T, E>) -> u32
    ensures { result ≡ told_of E.number r.now }
{
    match r {
        Ok(_) => 0,
        Err(e) => e.number(),
    }
}

// The node or place beside it.
pub fn place_of<T, E: Refusal>(r: &Result<T, E>) -> usize
    ensures { result ≡ told_of E.place r.now }
{
    match r {
        Ok(_) => 0,
        Err(e) => e.place(),
    }
}

// The count that a call came to, or the node or place that its refusal blames.
pub fn count_or_place<E: Refusal>(r: &Result<usize, E>) -> usize
    ensures { result ≡ count_or E.place r.now }
{
    match r {
        Ok(k) => *k,
        Err(error) => error.place(),
    }
}
