//! Complements.

ghost use Rattle.std.specs.Prelude.{◌≡◌, IfOk};
ghost use Rattle.domain_affine_base.specs.Forms.{complement_of};
ghost use Rattle.domain_affine_base.specs.Words.{word_of};

use super::forms::difference;
use super::word::Word;
use std::alloc::{AllocError as NoMemory, Global};
use support_modular_rows::Form;

/// -1 less the form: of 1 + r it is -2 - r.
pub(crate) fn not(alloc: Global, form: &Form) -> Result<Word, NoMemory>
    ensures { IfOk result (λ r. r ≡ word_of (complement_of form.now)) }
{
    Ok(Word::of_form(difference(alloc, &[u32::MAX], &form.c)?))
}
