//! Comparisons of strided intervals.

ghost use Rattle.std.specs.Prelude.{◌≡◌};
ghost use Rattle.word_operations.specs.Width.{IsWidth};
ghost use Rattle.base_strides.specs.Meaning.{compared_stretches, equal_stretches, may_meet};
ghost use Rattle.base_interval.specs.Compare.{compared as compared_ranges};
ghost use Rattle.base_strides.specs.Rows.{range};
ghost use Rattle.base_strides.specs.Words.{IsEnds};

use super::divisor::{apart, divides, gcd_of_words};
use super::stretch::Stretch;
use base_interval::{Interval, Range};
use base_trait::{Base, Tri};
use word_operations::WordComparison;

fn may_meet(x: Stretch, y: Stretch) -> bool
    ensures { result ≡ may_meet x y }
{
    divides(gcd_of_words(x.step, y.step), apart(x.lo, y.lo))
}

fn by_ends(c: WordComparison, w: u32, x: Stretch, y: Stretch) -> Tri
    requires width { IsWidth w }
    requires left { IsEnds w x }
    requires right { IsEnds w y }
    ensures { result ≡ compared_ranges c w (range x) (range y) }
{
    let left = Range { lo: x.lo, hi: x.hi };
    let right = Range { lo: y.lo, hi: y.hi };
    Interval::cmp(&(), c, w, &left, &right)
}

fn equal(w: u32, x: Stretch, y: Stretch) -> Tri
    requires width { IsWidth w }
    requires left { IsEnds w x }
    requires right { IsEnds w y }
    ensures { result ≡ equal_stretches w x y }
{
    let ends = by_ends(WordComparison::Eq, w, x, y);
    Tri {
        may_true: ends.may_true && may_meet(x, y),
        may_false: ends.may_false,
    }
}

/// Which truth values a comparison of two stretches may have: by their ends, and of equality by their classes too.
pub(crate) fn compare(c: WordComparison, w: u32, x: Stretch, y: Stretch) -> Tri
    requires width { IsWidth w }
    requires left { IsEnds w x }
    requires right { IsEnds w y }
    ensures { result ≡ compared_stretches c w x y }
{
    match c {
        WordComparison::Eq => equal(w, x, y),
        WordComparison::Ne => {
            let same = equal(w, x, y);
            Tri {
                may_true: same.may_false,
                may_false: same.may_true,
            }
        }
        _ => by_ends(c, w, x, y),
    }
}
