//! Complements.

ghost use Rattle.std.specs.Prelude.{◌≡◌};
ghost use Rattle.base_interval.specs.Not.{not_of};
ghost use Rattle.base_interval.specs.Range.{Fits};
ghost use Rattle.word_operations.specs.Width.{IsWidth};

use super::range::Range;
use super::width::greatest;

/// The least interval of the complements. In 8 bits that of [1, 3] is [252, 254].
pub(crate) fn not(w: u32, x: Range) -> Range
    requires width { IsWidth w }
    requires word { Fits w x }
    ensures { result ≡ not_of w x }
{
    let greatest = greatest(w);
    Range::from_to(greatest - x.hi, greatest - x.lo)
}
