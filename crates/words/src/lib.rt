// Numbers of up to 128 bits in two words. Each promise gives the words themselves, as those of a number.
#![tactic(auto)]

pub mod bytes;

ghost use Rattle.std.specs.Prelude.{◌≡◌, ℕ, ◌*◌, ◌/◌, ◌%◌, ◌^◌, ltb, eqb};
ghost use Rattle.std.specs.Int.Bits.{bit_and, bit_or, bit_xor};
ghost use Rattle.words.specs.Wide.{val, wide_of, extract_of, concat_of};

use std::ops::{BitAnd, BitOr, BitXor, Shl, Shr};

// A number of up to 128 bits. The high word stands first, so the derived order is that of the numbers.
#[derive(Clone, Copy, PartialEq, Eq, PartialOrd, Ord)]
pub struct Wide {
    pub hi: u64,
    pub lo: u64,
}

impl From<u64> for Wide {
    ghost from_gives = { λ n x. x ≡ wide_of n };

    fn from(lo: u64) -> Wide {
        Wide { hi: 0, lo }
    }
}

impl BitAnd for Wide {
    type Output = Wide;

    ghost bitand_gives = { λ x y r. r ≡ wide_of (bit_and (val x) (val y)) };

    fn bitand(self, rhs: Wide) -> Wide {
        Wide {
            hi: self.hi & rhs.hi,
            lo: self.lo & rhs.lo,
        }
    }
}

impl BitOr for Wide {
    type Output = Wide;

    ghost bitor_gives = { λ x y r. r ≡ wide_of (bit_or (val x) (val y)) };

    fn bitor(self, rhs: Wide) -> Wide {
        Wide {
            hi: self.hi | rhs.hi,
            lo: self.lo | rhs.lo,
        }
    }
}

impl BitXor for Wide {
    type Output = Wide;

    ghost bitxor_gives = { λ x y r. r ≡ wide_of (bit_xor (val x) (val y)) };

    fn bitxor(self, rhs: Wide) -> Wide {
        Wide {
            hi: self.hi ^ rhs.hi,
            lo: self.lo ^ rhs.lo,
        }
    }
}

// The bits from bit k on; none from bit 128 on.
impl Shr<u64> for Wide {
    type Output = Wide;

    ghost shr_gives = { λ x k r. r ≡ wide_of (val x / 2 ^ k) };

    fn shr(self, k: u64) -> Wide {
        if k == 0 {
            return self;
        }
        if k < 64 {
            return Wide {
                hi: self.hi >> k,
                lo: (self.lo >> k) | (self.hi << (64 - k)),
            };
        }
        if k < 128 {
            return Wide::from(self.hi >> (k - 64));
        }
        Wide::from(0)
    }
}

// All bits k places up; those past bit 127 are lost.
impl Shl<u64> for Wide {
    type Output = Wide;

    ghost shl_gives = { λ x k r. r ≡ wide_of (val x * 2 ^ k % 2 ^ 128) };

    fn shl(self, k: u64) -> Wide {
        if k == 0 {
            return self;
        }
        if k < 64 {
            return Wide {
                hi: (self.hi << k) | (self.lo >> (64 - k)),
                lo: self.lo << k,
            };
        }
        if k < 128 {
            return Wide {
                hi: self.lo << (k - 64),
                lo: 0,
            };
        }
        Wide::from(0)
    }
}

// The derived order is that of the numbers, and so is equality: this says it of `<` and of `==`.
pub fn lt(x: Wide, y: Wide) -> bool
    ensures { result ≡ ltb (val x) (val y) }
{
    x < y
}

pub fn eq(x: Wide, y: Wide) -> bool
    ensures { result ≡ eqb (val x) (val y) }
{
    x == y
}

impl Wide {
    // The low k bits; all of them from 128 on.
    pub fn low(self, k: u64) -> Wide
        ensures { result ≡ wide_of (val self % 2 ^ k) }
    {
        if k < 64 {
            return Wide::from(self.lo & ((1u64 << k) - 1));
        }
        if k < 128 {
            return Wide {
                hi: self.hi & ((1u64 << (k - 64)) - 1),
                lo: self.lo,
            };
        }
        self
    }

    // Bits hi down to lo; none where lo is over hi.
    pub fn extract(self, hi: u64, lo: u64) -> Wide
        ensures { result ≡ wide_of (extract_of (val self) hi lo) }
    {
        if hi < 127 {
            self.low(hi + 1) >> lo
        } else {
            self >> lo
        }
    }

    // This number above the low k bits of y; what passes bit 127 is lost.
    pub fn concat(self, y: Wide, k: u64) -> Wide
        ensures { result ≡ wide_of (concat_of (val self) (val y) k % 2 ^ 128) }
    {
        (self << k) | y.low(k)
    }

    // Whether k bits hold the number.
    pub fn fits(self, k: u64) -> bool
        ensures { result ≡ ltb (val self) (2 ^ k) }
    {
        if k < 64 {
            return (self.hi == 0) & (self.lo >> k == 0);
        }
        if k < 128 {
            return self.hi >> (k - 64) == 0;
        }
        true
    }
}
