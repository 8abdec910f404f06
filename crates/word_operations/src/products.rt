//! High halves of products.

ghost use Rattle.std.specs.Prelude.{◌≡◌, ◌<◌, ◌^◌};
ghost use Rattle.word_operations.specs.Op2.{op2_of};
ghost use Rattle.word_operations.specs.Width.{IsWidth};

use super::kinds::BinaryOperation;
use super::signed::{signed_value, word_of};

pub(crate) fn mul_hi_u(w: u32, x: u64, y: u64) -> u64
    requires width { IsWidth w }
    requires left { x < 2 ^ w }
    requires right { y < 2 ^ w }
    ensures { result ≡ op2_of BinaryOperation.MulHiU w x y }
{
    ((x as u128 * y as u128) >> w) as u64
}

pub(crate) fn mul_hi_s(w: u32, x: u64, y: u64) -> u64
    requires width { IsWidth w }
    requires left { x < 2 ^ w }
    requires right { y < 2 ^ w }
    ensures value { result ≡ op2_of BinaryOperation.MulHiS w x y }
    ensures fits { result < 2 ^ w }
{
    word_of(w, (signed_value(w, x) * signed_value(w, y)) >> w)
}
