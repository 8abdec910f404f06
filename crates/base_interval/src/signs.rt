//! Sign bits.

ghost use Rattle.std.specs.Prelude.{◌≡◌, ◌*◌, ◌<◌, ◌^◌, nat_le};
ghost use Rattle.base_interval.specs.Signs.{crosses, is_low};
ghost use Rattle.word_operations.specs.Width.{IsWidth};

use super::range::Range;
use super::width::count;

/// Whether the word's sign bit is set.
fn is_negative(w: u32, n: u64) -> bool
    requires { IsWidth w }
    ensures { result ≡ nat_le (2 ^ w) (2 * n) }
{
    count(w) <= 2 * (n as u128)
}

/// Whether some sign bits are set and some are not.
pub(crate) fn crosses(w: u32, x: Range) -> bool
    requires width { IsWidth w }
    ensures { result ≡ crosses w x }
{
    !is_negative(w, x.lo) && is_negative(w, x.hi)
}

/// Whether no sign bit is set.
pub(crate) fn is_low(w: u32, x: Range) -> bool
    requires width { IsWidth w }
    ensures { result ≡ is_low w x }
{
    !is_negative(w, x.hi)
}
