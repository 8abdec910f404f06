//! Numbers whose digits are all 1.

ghost use Rattle.std.specs.Prelude.{◌≡◌, ◌<◌, ◌^◌};
ghost use Rattle.base_interval.specs.Ones.{ones_over};
ghost use Rattle.word_operations.specs.Width.{IsWidth};

use super::width::count;

/// The least 2^i - 1 that is at least `n`: 7 of 5, and 0 of 0.
pub(crate) fn ones_over(w: u32, n: u64) -> u64
    requires width { IsWidth w }
    requires word { n < 2 ^ w }
    ensures { result ≡ ones_over w n }
{
    let zeros = n.leading_zeros() - (64 - w);
    ((count(w) - 1) >> zeros) as u64
}
