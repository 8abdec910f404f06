//! Sums, differences, products and negation, modulo 2^w.

ghost use Rattle.std.specs.Prelude.{◌≡◌, ◌<◌, ◌^◌};
ghost use Rattle.word_operations.specs.Op1.{op1_of};
ghost use Rattle.word_operations.specs.Op2.{op2_of};
ghost use Rattle.word_operations.specs.Width.{IsWidth};

use super::kinds::{BinaryOperation, UnaryOperation};
use super::width::{greatest, lowest};

pub(crate) fn add(w: u32, x: u64, y: u64) -> u64
    requires { IsWidth w }
    ensures { result ≡ op2_of BinaryOperation.Add w x y }
{
    lowest(w, x.wrapping_add(y))
}

pub(crate) fn sub(w: u32, x: u64, y: u64) -> u64
    requires width { IsWidth w }
    requires right { y < 2 ^ w }
    ensures { result ≡ op2_of BinaryOperation.Sub w x y }
{
    lowest(w, x.wrapping_sub(y))
}

pub(crate) fn mul(w: u32, x: u64, y: u64) -> u64
    requires { IsWidth w }
    ensures { result ≡ op2_of BinaryOperation.Mul w x y }
{
    lowest(w, x.wrapping_mul(y))
}

pub(crate) fn neg(w: u32, x: u64) -> u64
    requires width { IsWidth w }
    requires word { x < 2 ^ w }
    ensures { result ≡ op1_of UnaryOperation.Neg w x }
{
    lowest(w, (greatest(w) - x).wrapping_add(1))
}
