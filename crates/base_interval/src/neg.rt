//! Negations.

ghost use Rattle.std.specs.Prelude.{◌≡◌};
ghost use Rattle.base_interval.specs.Neg.{neg_of};
ghost use Rattle.base_interval.specs.Range.{Fits};
ghost use Rattle.word_operations.specs.Width.{IsWidth};

use super::range::Range;
use super::width::count;
use super::wrapped::wrapped;

/// The least interval of the negations: the ends change places, unless 0 is among several numbers; then any.
/// In 8 bits that of [1, 3] is [253, 255].
pub(crate) fn neg(w: u32, x: Range) -> Range
    requires width { IsWidth w }
    requires word { Fits w x }
    ensures { result ≡ neg_of w x }
{
    let count = count(w);
    wrapped(w, count - x.hi as u128, count - x.lo as u128)
}
