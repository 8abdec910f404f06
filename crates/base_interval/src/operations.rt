//! Operations on intervals, by their kinds.

ghost use Rattle.std.specs.Prelude.{◌≡◌};
ghost use Rattle.base_interval.specs.Operations.{op1_range, op2_range};
ghost use Rattle.base_interval.specs.Range.{Fits};
ghost use Rattle.word_operations.specs.Width.{IsWidth};

use super::add::add;
use super::and::and;
use super::div_s::div_s;
use super::div_u::div_u;
use super::mul::mul;
use super::mul_hi_s::mul_hi_s;
use super::mul_hi_u::mul_hi_u;
use super::neg::neg;
use super::not::not;
use super::or::or;
use super::range::Range;
use super::rem_s::rem_s;
use super::rem_u::rem_u;
use super::rot_l::rot_l;
use super::shl::shl;
use super::shr_s::shr_s;
use super::shr_u::shr_u;
use super::sub::sub;
use super::xor::xor;
use base_trait::dispatch;
use word_operations::{BinaryOperation, UnaryOperation};

/// An operation on one interval.
pub(crate) fn op1(op: UnaryOperation, w: u32, x: Range) -> Range
    requires width { IsWidth w }
    requires word { Fits w x }
    ensures { result ≡ op1_range op w x }
{
    dispatch!(op (w, x) {
        UnaryOperation::Neg => neg,
        UnaryOperation::Not => not,
    })
}

/// An operation on two intervals. Two single numbers give the exact result.
pub(crate) fn op2(op: BinaryOperation, w: u32, x: Range, y: Range) -> Range
    requires width { IsWidth w }
    requires left { Fits w x }
    requires right { Fits w y }
    ensures { result ≡ op2_range op w x y }
{
    if x.is_one() && y.is_one() {
        return Range::one(word_operations::op2(op, w, x.lo, y.lo));
    }
    dispatch!(op (w, x, y) {
        BinaryOperation::Add => add,
        BinaryOperation::Sub => sub,
        BinaryOperation::Mul => mul,
        BinaryOperation::And => and,
        BinaryOperation::Or => or,
        BinaryOperation::Xor => xor,
        BinaryOperation::Shl => shl,
        BinaryOperation::ShrU => shr_u,
        BinaryOperation::ShrS => shr_s,
        BinaryOperation::RotL => rot_l,
        BinaryOperation::DivU => div_u,
        BinaryOperation::DivS => div_s,
        BinaryOperation::RemU => rem_u,
        BinaryOperation::RemS => rem_s,
        BinaryOperation::MulHiU => mul_hi_u,
        BinaryOperation::MulHiS => mul_hi_s,
    })
}
