//! Comparisons of two words.

ghost use Rattle.std.specs.Prelude.{◌≡◌, is_none, false};
ghost use Rattle.word_operations.specs.Width.{IsWidth};
ghost use Rattle.base_strides.specs.Meaning.{Fits, compared, compared_stretches, span};
ghost use Rattle.base_strides.specs.Views.{set_part};

use super::compare::compare;
use super::word::StridedSet;
use base_kset::KSet;
use base_trait::{Base, Tri};
use word_operations::WordComparison;

fn compare_spans(c: WordComparison, w: u32, x: &StridedSet, y: &StridedSet) -> Tri
    requires width { IsWidth w }
    requires left { Fits w x.now }
    requires right { Fits w y.now }
    ensures { result ≡ compared_stretches c w (span x.now) (span y.now) }
{
    compare(c, w, x.span(), y.span())
}

fn compare_sets(c: WordComparison, w: u32, x: &StridedSet, y: &StridedSet) -> Tri
    requires width { IsWidth w }
    requires left { Fits w x.now }
    requires right { Fits w y.now }
    requires first { is_none (set_part x.now) ≡ false }
    requires second { is_none (set_part y.now) ≡ false }
    ensures { result ≡ compared c w x.now y.now }
{
    KSet::<16>::cmp(&(), c, w, x.set(), y.set())
}

/// Which truth values a comparison of two words may have: exactly those of some pair of two sets, else those of the
/// spans.
pub(crate) fn compare_words(c: WordComparison, w: u32, x: &StridedSet, y: &StridedSet) -> Tri
    requires width { IsWidth w }
    requires left { Fits w x.now }
    requires right { Fits w y.now }
    ensures { result ≡ compared c w x.now y.now }
{
    if x.set().is_any() || y.set().is_any() {
        compare_spans(c, w, x, y)
    } else {
        compare_sets(c, w, x, y)
    }
}
