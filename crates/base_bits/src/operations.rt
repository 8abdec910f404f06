//! The rules of the operations.

ghost use Rattle.std.specs.Prelude.{◌≡◌};
ghost use Rattle.word_operations.specs.Width.{IsWidth};
ghost use Rattle.base_bits.specs.Known.{any, Fits};
ghost use Rattle.base_bits.specs.Meaning.{by_rule, op1_known, op2_known};

use super::add::add;
use super::and::and;
use super::known::Known;
use super::not::not;
use super::or::or;
use super::shifts::{rot_l, shl, shr_s, shr_u};
use super::sub::{neg, sub};
use super::xor::xor;
use base_trait::dispatch;
use word_operations::{BinaryOperation, UnaryOperation, op2};

/// An operation on one word, by its rule.
pub(crate) fn of_one(op: UnaryOperation, w: u32, x: Known) -> Known
    requires width { IsWidth w }
    requires word { Fits w x }
    ensures { result ≡ op1_known op w x }
{
    dispatch!(op (w, x) {
        UnaryOperation::Neg => neg,
        UnaryOperation::Not => not,
    })
}

/// An operation on two words: two exact ones give the exact result, and others what the rule says.
pub(crate) fn of_two(op: BinaryOperation, w: u32, x: Known, y: Known) -> Known
    requires width { IsWidth w }
    requires left { Fits w x }
    requires right { Fits w y }
    ensures { result ≡ op2_known op w x y }
{
    if x.is_exact() && y.is_exact() {
        Known::exact(op2(op, w, x.v, y.v))
    } else {
        by_rule(op, w, x, y)
    }
}

fn by_rule(op: BinaryOperation, w: u32, x: Known, y: Known) -> Known
    requires width { IsWidth w }
    requires left { Fits w x }
    requires right { Fits w y }
    ensures { result ≡ by_rule op w x y }
{
    dispatch!(op (w, x, y) {
        BinaryOperation::And => and,
        BinaryOperation::Or => or,
        BinaryOperation::Xor => xor,
        BinaryOperation::Add => add,
        BinaryOperation::Sub => sub,
        BinaryOperation::Shl => shl,
        BinaryOperation::ShrU => shr_u,
        BinaryOperation::ShrS => shr_s,
        BinaryOperation::RotL => rot_l,
        _ => unknown,
    })
}

/// Products, quotients, remainders and high halves: nothing is known.
fn unknown(w: u32, _x: Known, _y: Known) -> Known
    requires { IsWidth w }
    ensures { result ≡ any w }
{
    Known::any(w)
}
