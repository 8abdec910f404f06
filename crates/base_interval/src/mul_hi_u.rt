//! High halves of products.

ghost use Rattle.std.specs.Prelude.{◌≡◌};
ghost use Rattle.base_interval.specs.MulHiU.{mul_hi_u_of};
ghost use Rattle.base_interval.specs.Range.{Fits};
ghost use Rattle.word_operations.specs.Width.{IsWidth};

use super::range::Range;
use word_operations::{BinaryOperation, op2};

/// From that of the low ends to that of the high ends. In 8 bits of [16, 32] and [16, 64] it is [1, 8].
pub(crate) fn mul_hi_u(w: u32, x: Range, y: Range) -> Range
    requires width { IsWidth w }
    requires left { Fits w x }
    requires right { Fits w y }
    ensures { result ≡ mul_hi_u_of w x y }
{
    Range::from_to(
        op2(BinaryOperation::MulHiU, w, x.lo, y.lo),
        op2(BinaryOperation::MulHiU, w, x.hi, y.hi),
    )
}
