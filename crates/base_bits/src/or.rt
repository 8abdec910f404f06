//! Or.

ghost use Rattle.std.specs.Prelude.{◌≡◌};
ghost use Rattle.base_bits.specs.Or.{or_of};

use super::known::{Known, without};

/// A bit is known 1 where either is, and known 0 where both are. Best: `v` 0 `m` 3 with the number 1 is
/// `v` 1 `m` 2, which is 1 or 3.
pub(crate) fn or(_w: u32, x: Known, y: Known) -> Known
    ensures { result ≡ or_of x y }
{
    let v = x.v | y.v;
    Known {
        v,
        m: without(x.m | y.m, v),
    }
}
