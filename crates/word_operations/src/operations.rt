//! Operations on words, by their kinds.

ghost use Rattle.std.specs.Prelude.{◌≡◌, ◌<◌, ◌^◌};
ghost use Rattle.word_operations.specs.Op1.{op1_of};
ghost use Rattle.word_operations.specs.Op2.{op2_of};
ghost use Rattle.word_operations.specs.Width.{IsWidth};

use super::arithmetic::{add, mul, neg, sub};
use super::bits::not;
use super::division::{div_s, div_u, rem_s, rem_u};
use super::kinds::{BinaryOperation, UnaryOperation};
use super::products::{mul_hi_s, mul_hi_u};
use super::shifts::{rot_l, shl, shr_s, shr_u};

/// An operation on two words.
pub fn op2(op: BinaryOperation, w: u32, x: u64, y: u64) -> u64
    requires width { IsWidth w }
    requires left { x < 2 ^ w }
    requires right { y < 2 ^ w }
    ensures value { result ≡ op2_of op w x y }
    ensures fits { result < 2 ^ w }
{
    match op {
        BinaryOperation::Add => add(w, x, y),
        BinaryOperation::Sub => sub(w, x, y),
        BinaryOperation::Mul => mul(w, x, y),
        BinaryOperation::And => x & y,
        BinaryOperation::Or => x | y,
        BinaryOperation::Xor => x ^ y,
        BinaryOperation::Shl => shl(w, x, y),
        BinaryOperation::ShrU => shr_u(w, x, y),
        BinaryOperation::ShrS => shr_s(w, x, y),
        BinaryOperation::RotL => rot_l(w, x, y),
        BinaryOperation::DivU => div_u(w, x, y),
        BinaryOperation::DivS => div_s(w, x, y),
        BinaryOperation::RemU => rem_u(w, x, y),
        BinaryOperation::RemS => rem_s(w, x, y),
        BinaryOperation::MulHiU => mul_hi_u(w, x, y),
        BinaryOperation::MulHiS => mul_hi_s(w, x, y),
    }
}

/// An operation on one word.
pub fn op1(op: UnaryOperation, w: u32, x: u64) -> u64
    requires width { IsWidth w }
    requires word { x < 2 ^ w }
    ensures value { result ≡ op1_of op w x }
    ensures fits { result < 2 ^ w }
{
    match op {
        UnaryOperation::Neg => neg(w, x),
        UnaryOperation::Not => not(w, x),
    }
}
