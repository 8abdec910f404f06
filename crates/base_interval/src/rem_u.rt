//! Remainders.

ghost use Rattle.std.specs.Prelude.{◌≡◌};
ghost use Rattle.base_interval.specs.RemU.{rem_u_of};
ghost use Rattle.base_interval.specs.Range.{Fits};
ghost use Rattle.word_operations.specs.Width.{IsWidth};

use super::range::Range;

/// The dividends, where each is below each divisor. By 0 alone 0; else at most the dividend, and below the
/// greatest divisor. [10, 20] % [3, 8] is [0, 7].
pub(crate) fn rem_u(w: u32, x: Range, y: Range) -> Range
    requires width { IsWidth w }
    requires left { Fits w x }
    requires right { Fits w y }
    ensures { result ≡ rem_u_of w x y }
{
    if y.hi == 0 {
        Range::one(0)
    } else if x.hi < y.lo {
        x
    } else {
        Range::from_to(0, x.hi.min(y.hi - 1))
    }
}
