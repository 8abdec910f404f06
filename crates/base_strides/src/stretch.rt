//! Strided intervals, by their ends.

ghost use Rattle.std.specs.Prelude.{◌≡◌, ◌≤◌, ◌/◌, ◌*◌, IsTrue};
ghost use Rattle.word_operations.specs.Width.{IsWidth};
ghost use Rattle.base_strides.specs.Meaning.{Fits, is_long};
ghost use Rattle.base_strides.specs.Rows.{is_one, narrow};
ghost use Rattle.base_strides.specs.Stretch.{common_step, has_number, hull, hull_of, hull_with, is_within, more, one, stretch};
ghost use Rattle.base_strides.specs.Words.{Strided};

use super::divisor::{apart, divides, gcd_of_words};
use super::width::greatest;

/// The numbers lo, lo + step, lo + 2 step, .., at most hi. A step of 0 goes with one number alone.
#[derive(Clone, Copy, Debug, PartialEq, Eq, Hash)]
pub struct Stretch {
    pub lo: u64,
    pub step: u64,
    pub hi: u64,
}

impl Stretch {
    /// One number alone.
    pub(crate) fn one(n: u64) -> Stretch
        ensures { result ≡ one n }
    {
        Stretch {
            lo: n,
            step: 0,
            hi: n,
        }
    }

    /// The numbers of the class of `low` modulo `step`, from `low` to `high` at most: of 1, 3 and 8 they are 1, 4, 7.
    pub(crate) fn new(low: u64, step: u64, high: u64) -> Stretch
        requires { low ≤ high }
        ensures value { result ≡ stretch low step high }
        ensures order { result.lo ≤ result.hi }
    {
        Stretch {
            lo: low,
            step,
            hi: low + whole_steps(high - low, step),
        }
    }

    /// The same; a step that is more than the ends are apart is 0.
    pub(crate) fn narrow(low: u64, step: u128, high: u64) -> Stretch
        requires { low ≤ high }
        ensures { result ≡ narrow low step high }
    {
        if ((high - low) as u128) < step {
            Stretch::one(low)
        } else {
            Stretch::new(low, step as u64, high)
        }
    }

    /// Whether it holds one number alone.
    pub(crate) fn is_one(self) -> bool
        ensures { result ≡ is_one self }
    {
        self.lo == self.hi
    }

    /// Whether the number is one of its.
    pub(crate) fn has(self, n: u64) -> bool
        ensures { result ≡ has_number self n }
    {
        self.lo <= n && n <= self.hi && divides(self.step, n - self.lo)
    }

    /// Whether the word of the stretch is one of `w` bits: it has more than 16 numbers, and the high end is one of them.
    pub fn is_long(self, w: u32) -> bool
        requires { IsWidth w }
        ensures value { result ≡ is_long w self }
        ensures fits { IsTrue result → Fits w (Strided self) }
    {
        self.lo <= self.hi
            && divides(self.step, self.hi - self.lo)
            && self.hi <= greatest(w)
            && self.more() >= 16
    }

    /// How many numbers there are after the first.
    pub(crate) fn more(self) -> u64
        requires { self.lo ≤ self.hi }
        ensures { result ≡ more self }
    {
        quotient(self.hi - self.lo, self.step)
    }

    /// Whether each number of the other is one of these.
    pub(crate) fn takes_in(self, inner: Stretch) -> bool
        ensures { result ≡ is_within self inner }
    {
        self.lo <= inner.lo
            && inner.hi <= self.hi
            && divides(self.step, inner.step)
            && divides(self.step, inner.lo - self.lo)
    }

    /// The step of a stretch that holds both.
    pub(crate) fn common_step(self, other: Stretch) -> u64
        ensures { result ≡ common_step self other }
    {
        gcd_of_words(
            gcd_of_words(self.step, other.step),
            apart(self.lo, other.lo),
        )
    }

    /// The least stretch that holds both: of 1, 4, 7 and 10, 16 it is 1, 4, .., 16.
    pub(crate) fn hull(self, other: Stretch) -> Stretch
        requires left { self.lo ≤ self.hi }
        requires right { other.lo ≤ other.hi }
        ensures value { result ≡ hull_of self other }
        ensures order { result.lo ≤ result.hi }
    {
        Stretch::new(
            self.lo.min(other.lo),
            self.common_step(other),
            self.hi.max(other.hi),
        )
    }
}

/// The quotient, and 0 by 0.
pub(crate) fn quotient(n: u64, d: u64) -> u64
    ensures { result ≡ n / d }
{
    if d == 0 { 0 } else { n / d }
}

/// The greatest multiple of the step that is at most `n`; 0 where the step is 0.
pub(crate) fn whole_steps(n: u64, step: u64) -> u64
    ensures value { result ≡ n / step * step }
    ensures less { result ≤ n }
{
    quotient(n, step) * step
}

/// The least stretch that holds the first, and each number of the list.
pub(crate) fn hull_with(x: Stretch, ns: &[u64]) -> Stretch
    requires { x.lo ≤ x.hi }
    ensures value { result ≡ hull_with x ns.now }
    ensures order { result.lo ≤ result.hi }
{
    let mut out = x;
    for n in ns {
        out = out.hull(Stretch::one(*n));
    }
    out
}

/// The least stretch that holds each number of the list; 0 alone of none.
pub(crate) fn hull(ns: &[u64]) -> Stretch
    ensures value { result ≡ hull ns.now }
    ensures order { result.lo ≤ result.hi }
{
    match ns {
        [first, rest @ ..] => hull_with(Stretch::one(*first), rest),
        [] => Stretch::one(0),
    }
}
