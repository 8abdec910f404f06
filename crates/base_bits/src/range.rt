//! Ranges of numbers.

ghost use Rattle.std.specs.Prelude.{◌≡◌};
ghost use Rattle.base_bits.specs.Range.{all_to_highest, range_of};

use super::known::{Known, without};

/// Unknown are the highest bit in which the ends differ and all below it: 5 to 6 is `v` 4 `m` 3.
pub(crate) fn range(low: u64, high: u64) -> Known
    ensures { result ≡ range_of low high }
{
    let m = all_to_highest(low ^ high);
    Known {
        v: without(low, m),
        m,
    }
}

/// The highest set bit and all bits below it.
fn all_to_highest(n: u64) -> u64
    ensures { result ≡ all_to_highest n }
{
    if n == 0 {
        0
    } else {
        u64::MAX >> n.leading_zeros()
    }
}
