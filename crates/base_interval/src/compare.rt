//! Comparisons of intervals, by their kinds.

ghost use Rattle.std.specs.Prelude.{◌≡◌};
ghost use Rattle.base_interval.specs.Compare.{compared};
ghost use Rattle.base_interval.specs.Range.{Fits};
ghost use Rattle.word_operations.specs.Width.{IsWidth};

use super::equal::{eq, ne};
use super::order::{le_s, le_u, lt_s, lt_u};
use super::range::Range;
use base_trait::{Tri, dispatch};
use word_operations::WordComparison;

/// Which truth values a comparison of two intervals may have.
pub(crate) fn compare(c: WordComparison, w: u32, x: Range, y: Range) -> Tri
    requires width { IsWidth w }
    requires left { Fits w x }
    requires right { Fits w y }
    ensures { result ≡ compared c w x y }
{
    dispatch!(c (w, x, y) {
        WordComparison::Eq => eq,
        WordComparison::Ne => ne,
        WordComparison::LtU => lt_u,
        WordComparison::LeU => le_u,
        WordComparison::LtS => lt_s,
        WordComparison::LeS => le_s,
    })
}
