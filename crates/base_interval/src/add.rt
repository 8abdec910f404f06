//! Sums.

ghost use Rattle.std.specs.Prelude.{◌≡◌};
ghost use Rattle.base_interval.specs.Add.{add_of};
ghost use Rattle.base_interval.specs.Range.{Fits};
ghost use Rattle.word_operations.specs.Width.{IsWidth};

use super::range::Range;
use super::wrapped::wrapped;

/// The least interval of the sums: the ends are added modulo 2^w, where both sums or neither passes the
/// greatest word; else any. In 8 bits [250, 251] + [3, 4] is [253, 255], and with [3, 5] any.
pub(crate) fn add(w: u32, x: Range, y: Range) -> Range
    requires width { IsWidth w }
    requires left { Fits w x }
    requires right { Fits w y }
    ensures { result ≡ add_of w x y }
{
    wrapped(w, x.lo as u128 + y.lo as u128, x.hi as u128 + y.hi as u128)
}
