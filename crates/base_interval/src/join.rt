//! Hulls.

ghost use Rattle.std.specs.Prelude.{◌≡◌};
ghost use Rattle.base_interval.specs.Join.{join_of};

use super::range::Range;

/// From the lesser low end to the greater high end. Of [1, 3] and [8, 9] it is [1, 9].
pub(crate) fn join(x: Range, y: Range) -> Range
    ensures { result ≡ join_of x y }
{
    Range::from_to(x.lo.min(y.lo), x.hi.max(y.hi))
}
