//! Disjunctions, bit by bit.

ghost use Rattle.std.specs.Prelude.{◌≡◌};
ghost use Rattle.base_interval.specs.Or.{or_of};
ghost use Rattle.base_interval.specs.Range.{Fits};
ghost use Rattle.word_operations.specs.Width.{IsWidth};

use super::ones::ones_over;
use super::range::Range;

/// At least each of the operands, and of no more digits than the longer one. [5, 9] | [3, 4] is [5, 15].
pub(crate) fn or(w: u32, x: Range, y: Range) -> Range
    requires width { IsWidth w }
    requires left { Fits w x }
    requires right { Fits w y }
    ensures { result ≡ or_of w x y }
{
    Range::from_to(x.lo.max(y.lo), ones_over(w, x.hi.max(y.hi)))
}
