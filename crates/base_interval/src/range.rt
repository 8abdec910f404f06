//! Intervals of numbers, by their ends.

ghost use Rattle.std.specs.Prelude.{◌≡◌, ◌<◌, ◌^◌};
ghost use Rattle.base_interval.specs.Range.{all, from_to, has, is_one, is_within, one};
ghost use Rattle.word_operations.specs.Width.{IsWidth};

use super::width::greatest;

/// The numbers from `lo` to `hi`, both of them included. An interval that the base gives has `lo` at
/// most `hi`, and `hi` below 2^w.
#[derive(Clone, Copy, Debug, PartialEq, Eq, Hash)]
pub struct Range {
    pub lo: u64,
    pub hi: u64,
}

impl Range {
    /// The numbers from `low` to `high`.
    pub(crate) fn from_to(low: u64, high: u64) -> Range
        ensures { result ≡ from_to low high }
    {
        Range { lo: low, hi: high }
    }

    /// One number alone.
    pub(crate) fn one(n: u64) -> Range
        ensures { result ≡ one n }
    {
        Range::from_to(n, n)
    }

    /// Every word of `w` bits.
    pub(crate) fn all(w: u32) -> Range
        requires { IsWidth w }
        ensures { result ≡ all w }
    {
        Range::from_to(0, greatest(w))
    }

    /// Whether it holds one number alone.
    pub(crate) fn is_one(self) -> bool
        ensures { result ≡ is_one self }
    {
        self.lo == self.hi
    }

    /// Whether it holds the number.
    pub(crate) fn has(self, n: u64) -> bool
        ensures { result ≡ has self n }
    {
        self.lo <= n && n <= self.hi
    }

    /// Whether the other interval lies inside it.
    pub(crate) fn takes_in(self, inner: Range) -> bool
        ensures { result ≡ is_within self inner }
    {
        self.lo <= inner.lo && inner.hi <= self.hi
    }
}
