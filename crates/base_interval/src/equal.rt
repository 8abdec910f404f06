//! Equality of numbers of two intervals.

ghost use Rattle.std.specs.Prelude.{◌≡◌};
ghost use Rattle.base_interval.specs.Equal.{equality, inequality};

use super::range::Range;
use base_trait::Tri;

/// May be true where the intervals meet, and false unless both hold the same one number.
pub(crate) fn eq(w: u32, x: Range, y: Range) -> Tri
    ensures { result ≡ equality x y }
{
    let same = x.is_one() && y.is_one() && x.lo == y.lo;
    Tri {
        may_true: x.lo <= y.hi && y.lo <= x.hi,
        may_false: !same,
    }
}

/// The other way.
pub(crate) fn ne(w: u32, x: Range, y: Range) -> Tri
    ensures { result ≡ inequality x y }
{
    let equal = eq(w, x, y);
    Tri {
        may_true: equal.may_false,
        may_false: equal.may_true,
    }
}
