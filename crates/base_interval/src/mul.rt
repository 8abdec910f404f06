//! Products.

ghost use Rattle.std.specs.Prelude.{◌≡◌};
ghost use Rattle.base_interval.specs.Mul.{mul_of};
ghost use Rattle.base_interval.specs.Range.{Fits};
ghost use Rattle.word_operations.specs.Width.{IsWidth};

use super::range::Range;
use super::width::count;

/// From the product of the low ends to that of the high ends, where the latter is a word; else any.
/// In 8 bits [2, 3] * [4, 50] is [8, 150].
pub(crate) fn mul(w: u32, x: Range, y: Range) -> Range
    requires width { IsWidth w }
    requires left { Fits w x }
    requires right { Fits w y }
    ensures { result ≡ mul_of w x y }
{
    let high = x.hi as u128 * y.hi as u128;
    if high < count(w) {
        Range::from_to(x.lo * y.lo, high as u64)
    } else {
        Range::all(w)
    }
}
