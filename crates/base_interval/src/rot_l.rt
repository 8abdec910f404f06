//! Left rotations.

ghost use Rattle.std.specs.Prelude.{◌≡◌};
ghost use Rattle.base_interval.specs.RotL.{rot_l_of};
ghost use Rattle.base_interval.specs.Range.{Fits};
ghost use Rattle.word_operations.specs.Width.{IsWidth};

use super::range::Range;
use super::shl::shifted_left;

/// By one number, modulo `w`: the multiples by its power of two, where no bit comes round; else any.
pub(crate) fn rot_l(w: u32, x: Range, y: Range) -> Range
    requires width { IsWidth w }
    requires left { Fits w x }
    requires right { Fits w y }
    ensures { result ≡ rot_l_of w x y }
{
    if y.is_one() {
        shifted_left(w, x, y.lo % w as u64)
    } else {
        Range::all(w)
    }
}
