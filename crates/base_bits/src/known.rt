//! Words of known and unknown bits.

ghost use Rattle.std.specs.Prelude.{◌≡◌};
ghost use Rattle.word_operations.specs.Width.{IsWidth};
ghost use Rattle.base_bits.specs.Known.{any, exact, greatest, is_exact, without};

/// A word of which each bit is known or unknown. It stands for `v` with each choice of the bits of `m`:
/// with `v` 4 and `m` 3 for 4, 5, 6 and 7.
#[derive(Clone, Copy, Debug, Drop, PartialEq, Eq, Hash)]
pub struct Known {
    /// The known bits that are 1.
    pub v: u64,
    /// The unknown bits; `v` has none of them.
    pub m: u64,
}

impl Known {
    /// The word of one number.
    pub(crate) fn exact(n: u64) -> Known
        ensures { result ≡ exact n }
    {
        Known { v: n, m: 0 }
    }

    /// The word of every number.
    pub(crate) fn any(w: u32) -> Known
        requires { IsWidth w }
        ensures { result ≡ any w }
    {
        Known {
            v: 0,
            m: u64::MAX >> (64 - w),
        }
    }

    /// Whether no bit is unknown.
    pub(crate) fn is_exact(self) -> bool
        ensures { result ≡ is_exact self }
    {
        self.m == 0
    }

    /// The greatest number that it stands for; the least is `v`.
    pub(crate) fn greatest(self) -> u64
        ensures { result ≡ greatest self }
    {
        self.v | self.m
    }
}

/// The bits of `n` that are none of `m`.
pub(crate) fn without(n: u64, m: u64) -> u64
    ensures { result ≡ without n m }
{
    n & !m
}
