//! Shifts to the left.

ghost use Rattle.std.specs.Prelude.{◌≡◌, IfOk};
ghost use Rattle.domain_affine_base.specs.Operations.{shifted_of};
ghost use Rattle.domain_affine_base.specs.Words.{IsOf};

use super::forms::multiple;
use super::word::Word;
use std::alloc::{AllocError as NoMemory, Global};
use word_operations::{BinaryOperation, op2};

/// A form, shifted by a constant: 1 + r by 4 is 16 + 16r, and by 32 or more it is 0.
pub(crate) fn shl(alloc: Global, w: u32, x: &Word, y: &Word) -> Result<Word, NoMemory>
    requires left { IsOf w x.now }
    requires right { IsOf w y.now }
    ensures { IfOk result (λ r. r ≡ shifted_of x.now y.now) }
{
    match (x, y) {
        (Word::Form(f), Word::Const(n)) => {
            let power = op2(BinaryOperation::Shl, 32, 1, *n) as u32;
            Ok(Word::of_form(multiple(alloc, power, &f.c)?))
        }
        _ => Ok(Word::Any),
    }
}
