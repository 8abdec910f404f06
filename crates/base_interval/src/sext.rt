//! Sign extensions.

ghost use Rattle.std.specs.Prelude.{◌≡◌};
ghost use Rattle.base_trait.specs.Laws.{IsExtension};
ghost use Rattle.base_interval.specs.Sext.{sext_of};
ghost use Rattle.base_interval.specs.Range.{Fits};

use super::range::Range;

/// From end to end, the least interval. From 4 bits to 8, [6, 9] is [6, 249].
pub(crate) fn sext(from: u32, to: u32, x: Range) -> Range
    requires widths { IsExtension from to }
    requires word { Fits from x }
    ensures { result ≡ sext_of from to x }
{
    Range::from_to(
        word_operations::sext(from, to, x.lo),
        word_operations::sext(from, to, x.hi),
    )
}
