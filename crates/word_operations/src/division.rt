//! Quotients and remainders.

ghost use Rattle.std.specs.Prelude.{◌≡◌, ◌<◌, ◌^◌};
ghost use Rattle.word_operations.specs.Op2.{op2_of};
ghost use Rattle.word_operations.specs.Width.{IsWidth};

use super::kinds::BinaryOperation;
use super::signed::{signed_value, word_of};

pub(crate) fn div_u(w: u32, x: u64, y: u64) -> u64
    ensures { result ≡ op2_of BinaryOperation.DivU w x y }
{
    if y == 0 { 0 } else { x / y }
}

pub(crate) fn rem_u(w: u32, x: u64, y: u64) -> u64
    ensures { result ≡ op2_of BinaryOperation.RemU w x y }
{
    if y == 0 { 0 } else { x % y }
}

pub(crate) fn div_s(w: u32, x: u64, y: u64) -> u64
    requires width { IsWidth w }
    requires left { x < 2 ^ w }
    requires right { y < 2 ^ w }
    ensures value { result ≡ op2_of BinaryOperation.DivS w x y }
    ensures fits { result < 2 ^ w }
{
    if y == 0 {
        return 0;
    }
    let dividend = signed_value(w, x);
    let divisor = signed_value(w, y);
    let quotient = dividend / divisor;
    word_of(w, quotient)
}

pub(crate) fn rem_s(w: u32, x: u64, y: u64) -> u64
    requires width { IsWidth w }
    requires left { x < 2 ^ w }
    requires right { y < 2 ^ w }
    ensures value { result ≡ op2_of BinaryOperation.RemS w x y }
    ensures fits { result < 2 ^ w }
{
    if y == 0 {
        return 0;
    }
    let dividend = signed_value(w, x);
    let divisor = signed_value(w, y);
    let remainder = dividend % divisor;
    word_of(w, remainder)
}
