//! Products.

ghost use Rattle.std.specs.Prelude.{◌≡◌, IfOk};
ghost use Rattle.domain_affine_base.specs.Operations.{product_of};
ghost use Rattle.domain_affine_base.specs.Words.{IsOf};

use super::forms::multiple;
use super::word::Word;
use std::alloc::{AllocError as NoMemory, Global};

/// The product of a form and a constant, on either side: of 3 and 1 + 2r it is 3 + 6r.
pub(crate) fn mul(alloc: Global, w: u32, x: &Word, y: &Word) -> Result<Word, NoMemory>
    requires left { IsOf w x.now }
    requires right { IsOf w y.now }
    ensures { IfOk result (λ r. r ≡ product_of x.now y.now) }
{
    match (x, y) {
        (Word::Form(f), Word::Const(n)) => Ok(Word::of_form(multiple(alloc, *n as u32, &f.c)?)),
        (Word::Const(m), Word::Form(g)) => Ok(Word::of_form(multiple(alloc, *m as u32, &g.c)?)),
        _ => Ok(Word::Any),
    }
}
