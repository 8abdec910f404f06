//! Exclusive disjunctions, bit by bit.

ghost use Rattle.std.specs.Prelude.{◌≡◌};
ghost use Rattle.base_interval.specs.Xor.{xor_of};
ghost use Rattle.base_interval.specs.Range.{Fits};
ghost use Rattle.word_operations.specs.Width.{IsWidth};

use super::ones::ones_over;
use super::range::Range;

/// Of no more digits than the longer operand. [5, 9] ^ [3, 4] is [0, 15].
pub(crate) fn xor(w: u32, x: Range, y: Range) -> Range
    requires width { IsWidth w }
    requires left { Fits w x }
    requires right { Fits w y }
    ensures { result ≡ xor_of w x y }
{
    Range::from_to(0, ones_over(w, x.hi.max(y.hi)))
}
