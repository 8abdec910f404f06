//! Left shifts.

ghost use Rattle.std.specs.Prelude.{◌≡◌, ◌<◌};
ghost use Rattle.base_interval.specs.Shl.{shifted_left, shl_of};
ghost use Rattle.base_interval.specs.Range.{Fits};
ghost use Rattle.word_operations.specs.Width.{IsWidth};

use super::range::Range;
use super::width::count;

/// By one number: the multiples by its power of two, where the greatest is a word, and 0 by `w` or more.
/// By several numbers any.
pub(crate) fn shl(w: u32, x: Range, y: Range) -> Range
    requires width { IsWidth w }
    requires left { Fits w x }
    requires right { Fits w y }
    ensures { result ≡ shl_of w x y }
{
    if !y.is_one() {
        return Range::all(w);
    }
    if y.lo >= w as u64 {
        Range::one(0)
    } else {
        shifted_left(w, x, y.lo)
    }
}

/// The multiples by 2^n, where the greatest is a word; else any.
pub(crate) fn shifted_left(w: u32, x: Range, n: u64) -> Range
    requires width { IsWidth w }
    requires word { Fits w x }
    requires places { n < w }
    ensures { result ≡ shifted_left w x n }
{
    let high = (x.hi as u128) << n;
    if high < count(w) {
        Range::from_to(x.lo << n, high as u64)
    } else {
        Range::all(w)
    }
}
