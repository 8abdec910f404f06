//! Right shifts, with copies of the sign bit.

ghost use Rattle.std.specs.Prelude.{◌≡◌};
ghost use Rattle.base_interval.specs.ShrS.{shr_s_of};
ghost use Rattle.base_interval.specs.Range.{Fits};
ghost use Rattle.word_operations.specs.Width.{IsWidth};

use super::range::Range;
use super::signs::crosses;
use word_operations::{BinaryOperation, op2};

/// By one number: from end to end, where both ends have one sign bit; else any. In 8 bits [128, 192] by 1 is
/// [192, 224].
pub(crate) fn shr_s(w: u32, x: Range, y: Range) -> Range
    requires width { IsWidth w }
    requires left { Fits w x }
    requires right { Fits w y }
    ensures { result ≡ shr_s_of w x y }
{
    if y.is_one() && !crosses(w, x) {
        Range::from_to(
            op2(BinaryOperation::ShrS, w, x.lo, y.lo),
            op2(BinaryOperation::ShrS, w, x.hi, y.lo),
        )
    } else {
        Range::all(w)
    }
}
