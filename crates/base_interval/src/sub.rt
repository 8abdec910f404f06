//! Differences.

ghost use Rattle.std.specs.Prelude.{◌≡◌};
ghost use Rattle.base_interval.specs.Sub.{sub_of};
ghost use Rattle.base_interval.specs.Range.{Fits};
ghost use Rattle.word_operations.specs.Width.{IsWidth};

use super::range::Range;
use super::width::count;
use super::wrapped::wrapped;

/// The least interval of the differences: from the low end less the other's high end to the high end less the other's low
/// end, modulo 2^w, where both or neither is below 0; else any. In 8 bits [5, 9] - [2, 3] is [2, 7].
pub(crate) fn sub(w: u32, x: Range, y: Range) -> Range
    requires width { IsWidth w }
    requires left { Fits w x }
    requires right { Fits w y }
    ensures { result ≡ sub_of w x y }
{
    let count = count(w);
    wrapped(
        w,
        x.lo as u128 + count - y.hi as u128,
        x.hi as u128 + count - y.lo as u128,
    )
}
