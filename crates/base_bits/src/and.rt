//! And.

ghost use Rattle.std.specs.Prelude.{◌≡◌};
ghost use Rattle.base_bits.specs.And.{and_of};

use super::known::{Known, without};

/// A bit is known 0 where either is, and known 1 where both are. Best: `v` 12 `m` 3 with the number 10 is
/// `v` 8 `m` 2, which is 8 or 10.
pub(crate) fn and(_w: u32, x: Known, y: Known) -> Known
    ensures { result ≡ and_of x y }
{
    let v = x.v & y.v;
    Known {
        v,
        m: without(x.greatest() & y.greatest(), v),
    }
}
