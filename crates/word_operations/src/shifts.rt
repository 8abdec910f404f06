//! Shifts and rotations.

ghost use Rattle.std.specs.Prelude.{◌≡◌, ◌<◌, ◌^◌};
ghost use Rattle.word_operations.specs.Op2.{op2_of};
ghost use Rattle.word_operations.specs.Width.{IsWidth};

use super::kinds::BinaryOperation;
use super::signed::{signed_value, word_of};
use super::width::lowest;

pub(crate) fn shl(w: u32, x: u64, y: u64) -> u64
    requires { IsWidth w }
    ensures { result ≡ op2_of BinaryOperation.Shl w x y }
{
    if y < w as u64 { lowest(w, x << y) } else { 0 }
}

pub(crate) fn shr_u(w: u32, x: u64, y: u64) -> u64
    requires width { IsWidth w }
    requires word { x < 2 ^ w }
    ensures { result ≡ op2_of BinaryOperation.ShrU w x y }
{
    if y < w as u64 { x >> y } else { 0 }
}

pub(crate) fn shr_s(w: u32, x: u64, y: u64) -> u64
    requires width { IsWidth w }
    requires word { x < 2 ^ w }
    ensures value { result ≡ op2_of BinaryOperation.ShrS w x y }
    ensures fits { result < 2 ^ w }
{
    word_of(w, signed_value(w, x) >> y.min(w as u64))
}

pub(crate) fn rot_l(w: u32, x: u64, y: u64) -> u64
    requires width { IsWidth w }
    requires word { x < 2 ^ w }
    ensures value { result ≡ op2_of BinaryOperation.RotL w x y }
    ensures fits { result < 2 ^ w }
{
    let n = y % w as u64;
    if n == 0 {
        x
    } else {
        lowest(w, x << n) | (x >> (w as u64 - n))
    }
}
