//! Shifts and rotations by an exact number. By any other the result is any.

ghost use Rattle.std.specs.Prelude.{◌≡◌};
ghost use Rattle.word_operations.specs.Width.{IsWidth};
ghost use Rattle.word_operations.specs.declared.kinds.BinaryOperation.TheVariants.{Shl, ShrU, ShrS, RotL};
ghost use Rattle.base_bits.specs.Known.{Fits};
ghost use Rattle.base_bits.specs.Moved.{shifted};

use super::known::Known;
use word_operations::{BinaryOperation, op2};

/// To the left; zeros come in. Best: `v` 0 `m` 3 by 4 is `v` 0 `m` 48.
pub(crate) fn shl(w: u32, x: Known, y: Known) -> Known
    requires width { IsWidth w }
    requires left { Fits w x }
    requires right { Fits w y }
    ensures { result ≡ shifted Shl w x y }
{
    shift_known(BinaryOperation::Shl, w, x, y)
}

/// To the right; zeros come in. Best: `v` 16 `m` 3 by 1 is `v` 8 `m` 1.
pub(crate) fn shr_u(w: u32, x: Known, y: Known) -> Known
    requires width { IsWidth w }
    requires left { Fits w x }
    requires right { Fits w y }
    ensures { result ≡ shifted ShrU w x y }
{
    shift_known(BinaryOperation::ShrU, w, x, y)
}

/// To the right; copies of the sign bit come in, unknown where it is. Best: of 4 bits, `v` 0 `m` 8 by 2 is
/// `v` 0 `m` 14.
pub(crate) fn shr_s(w: u32, x: Known, y: Known) -> Known
    requires width { IsWidth w }
    requires left { Fits w x }
    requires right { Fits w y }
    ensures { result ≡ shifted ShrS w x y }
{
    shift_known(BinaryOperation::ShrS, w, x, y)
}

/// To the left; the bits that leave come in again. Best: of 4 bits, `v` 8 `m` 1 by 1 is `v` 1 `m` 2.
pub(crate) fn rot_l(w: u32, x: Known, y: Known) -> Known
    requires width { IsWidth w }
    requires left { Fits w x }
    requires right { Fits w y }
    ensures { result ≡ shifted RotL w x y }
{
    shift_known(BinaryOperation::RotL, w, x, y)
}

/// The same operation on the known and on the unknown bits.
fn shift_known(op: BinaryOperation, w: u32, x: Known, y: Known) -> Known
    requires width { IsWidth w }
    requires left { Fits w x }
    requires right { Fits w y }
    ensures { result ≡ shifted op w x y }
{
    if y.is_exact() {
        Known {
            v: op2(op, w, x.v, y.v),
            m: op2(op, w, x.m, y.v),
        }
    } else {
        Known::any(w)
    }
}
