//! Negations.

ghost use Rattle.std.specs.Prelude.{◌≡◌, IfOk};
ghost use Rattle.domain_affine_base.specs.Forms.{negation_of};
ghost use Rattle.domain_affine_base.specs.Words.{word_of};

use super::forms::negation;
use super::word::Word;
use std::alloc::{AllocError as NoMemory, Global};
use support_modular_rows::Form;

/// 0 less the form: of 1 + r it is -1 - r.
pub(crate) fn neg(alloc: Global, form: &Form) -> Result<Word, NoMemory>
    ensures { IfOk result (λ r. r ≡ word_of (negation_of form.now)) }
{
    Ok(Word::of_form(negation(alloc, &form.c)?))
}
