//! Conjunctions, bit by bit.

ghost use Rattle.std.specs.Prelude.{◌≡◌};
ghost use Rattle.base_interval.specs.And.{and_of};
ghost use Rattle.base_interval.specs.Range.{Fits};
ghost use Rattle.word_operations.specs.Width.{IsWidth};

use super::range::Range;

/// At most each of the operands. [5, 9] & [3, 4] is [0, 4].
pub(crate) fn and(w: u32, x: Range, y: Range) -> Range
    requires width { IsWidth w }
    requires left { Fits w x }
    requires right { Fits w y }
    ensures { result ≡ and_of w x y }
{
    Range::from_to(0, x.hi.min(y.hi))
}
