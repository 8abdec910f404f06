//! Quotients.

ghost use Rattle.std.specs.Prelude.{◌≡◌};
ghost use Rattle.base_interval.specs.DivU.{div_u_of};
ghost use Rattle.base_interval.specs.Range.{Fits};
ghost use Rattle.word_operations.specs.Width.{IsWidth};

use super::range::Range;

/// Where no divisor is 0: from the least dividend by the greatest divisor to the greatest by the least. By 0
/// alone 0; else at most the dividend. [10, 20] / [2, 3] is [3, 10].
pub(crate) fn div_u(w: u32, x: Range, y: Range) -> Range
    requires width { IsWidth w }
    requires left { Fits w x }
    requires right { Fits w y }
    ensures { result ≡ div_u_of w x y }
{
    if y.hi == 0 {
        Range::one(0)
    } else if 0 < y.lo {
        Range::from_to(x.lo / y.hi, x.hi / y.lo)
    } else {
        Range::from_to(0, x.hi)
    }
}
