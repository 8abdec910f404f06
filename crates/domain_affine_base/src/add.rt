//! Sums.

ghost use Rattle.std.specs.Prelude.{◌≡◌, IfOk};
ghost use Rattle.domain_affine_base.specs.Forms.{sum_of};
ghost use Rattle.domain_affine_base.specs.Operations.{of_both};
ghost use Rattle.domain_affine_base.specs.Words.{IsOf};

use super::forms::sum;
use super::word::Word;
use std::alloc::{AllocError as NoMemory, Global};

/// The sum of two forms, or of a form and a constant: of 1 + r and 2 - r it is the constant 3.
pub(crate) fn add(alloc: Global, w: u32, x: &Word, y: &Word) -> Result<Word, NoMemory>
    requires left { IsOf w x.now }
    requires right { IsOf w y.now }
    ensures { IfOk result (λ r. r ≡ of_both sum_of x.now y.now) }
{
    match (x, y) {
        (Word::Form(f), Word::Form(g)) => Ok(Word::of_form(sum(alloc, &f.c, &g.c)?)),
        (Word::Form(f), Word::Const(n)) => Ok(Word::of_form(sum(alloc, &f.c, &[*n as u32])?)),
        (Word::Const(m), Word::Form(g)) => Ok(Word::of_form(sum(alloc, &[*m as u32], &g.c)?)),
        _ => Ok(Word::Any),
    }
}
