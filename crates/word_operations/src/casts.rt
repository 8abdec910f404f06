//! Words at another width.

ghost use Rattle.std.specs.Prelude.{◌≡◌, ◌<◌, ◌≤◌, ◌^◌};
ghost use Rattle.word_operations.specs.Casts.{zext_of, sext_of, trunc_of};
ghost use Rattle.word_operations.specs.Width.{IsWidth};

use super::signed::{signed_value, word_of};
use super::width::lowest;

/// The same number at a width that is no smaller.
pub fn zext(from: u32, to: u32, x: u64) -> u64
    requires from_width { IsWidth from }
    requires to_width { IsWidth to }
    requires widens { from ≤ to }
    requires word { x < 2 ^ from }
    ensures value { result ≡ zext_of from to x }
    ensures fits { result < 2 ^ to }
{
    x
}

/// The same signed reading at a width that is no smaller.
pub fn sext(from: u32, to: u32, x: u64) -> u64
    requires from_width { IsWidth from }
    requires to_width { IsWidth to }
    requires widens { from ≤ to }
    requires word { x < 2 ^ from }
    ensures value { result ≡ sext_of from to x }
    ensures fits { result < 2 ^ to }
{
    word_of(to, signed_value(from, x))
}

/// The lowest bits, at a width that is no greater.
pub fn trunc(from: u32, to: u32, x: u64) -> u64
    requires from_width { IsWidth from }
    requires to_width { IsWidth to }
    requires narrows { to ≤ from }
    requires word { x < 2 ^ from }
    ensures value { result ≡ trunc_of from to x }
    ensures fits { result < 2 ^ to }
{
    lowest(to, x)
}
