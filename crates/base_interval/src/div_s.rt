//! Signed quotients.

ghost use Rattle.std.specs.Prelude.{◌≡◌};
ghost use Rattle.base_interval.specs.DivS.{div_s_of};
ghost use Rattle.base_interval.specs.Range.{Fits};
ghost use Rattle.word_operations.specs.Width.{IsWidth};

use super::div_u::div_u;
use super::range::Range;
use super::signs::is_low;

/// As unsigned, where no sign bit is set; else any.
pub(crate) fn div_s(w: u32, x: Range, y: Range) -> Range
    requires width { IsWidth w }
    requires left { Fits w x }
    requires right { Fits w y }
    ensures { result ≡ div_s_of w x y }
{
    if is_low(w, x) && is_low(w, y) {
        div_u(w, x, y)
    } else {
        Range::all(w)
    }
}
