//! Xor.

ghost use Rattle.std.specs.Prelude.{◌≡◌};
ghost use Rattle.base_bits.specs.Xor.{xor_of};

use super::known::{Known, without};

/// A bit is known where both are. Best: `v` 4 `m` 3 with the number 7 is `v` 0 `m` 3.
pub(crate) fn xor(_w: u32, x: Known, y: Known) -> Known
    ensures { result ≡ xor_of x y }
{
    let m = x.m | y.m;
    Known {
        v: without(x.v ^ y.v, m),
        m,
    }
}
