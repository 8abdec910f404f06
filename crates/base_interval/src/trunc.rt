//! Truncations.

ghost use Rattle.std.specs.Prelude.{◌≡◌};
ghost use Rattle.base_interval.specs.Trunc.{trunc_of};
ghost use Rattle.word_operations.specs.Width.{IsWidth};

use super::range::Range;
use super::wrapped::wrapped;

/// The least interval of the lowest bits: those of both ends, where the bits above agree, else any. From 8 bits to
/// 4, [33, 36] is [1, 4], and [30, 33] any.
pub(crate) fn trunc(to: u32, x: Range) -> Range
    requires { IsWidth to }
    ensures { result ≡ trunc_of to x }
{
    wrapped(to, x.lo as u128, x.hi as u128)
}
