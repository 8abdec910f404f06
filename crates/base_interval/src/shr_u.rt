//! Right shifts, with zeros.

ghost use Rattle.std.specs.Prelude.{◌≡◌};
ghost use Rattle.base_interval.specs.ShrU.{shr_u_of};
ghost use Rattle.base_interval.specs.Range.{Fits};
ghost use Rattle.word_operations.specs.Width.{IsWidth};

use super::range::Range;
use word_operations::{BinaryOperation, op2};

/// From the low end by the most places to the high end by the fewest. [32, 64] >> [1, 2] is [8, 32].
pub(crate) fn shr_u(w: u32, x: Range, y: Range) -> Range
    requires width { IsWidth w }
    requires left { Fits w x }
    requires right { Fits w y }
    ensures { result ≡ shr_u_of w x y }
{
    Range::from_to(
        op2(BinaryOperation::ShrU, w, x.lo, y.hi),
        op2(BinaryOperation::ShrU, w, x.hi, y.lo),
    )
}
