//! Words: any number, one number, or an affine form.

ghost use Rattle.std.specs.Prelude.{◌≡◌, ℕ, ◌+◌, IfOk, length};
ghost use Rattle.domain_affine_base.specs.Words.{Fits, word_of};

use super::forms::{constant_of, copy_form, is_constant};
use std::alloc::{AllocError as NoMemory, Global};
use std::hash::{Hash, Hasher};
use support_modular_rows::Form;

/// A word of an analysis. One that the base gives is never a form without multiples: that is its constant.
#[derive(Debug, Drop)]
pub enum Word {
    /// Each number of the width.
    Any,
    /// This number alone.
    Const(u64),
    /// Of 32 bits: the constant and the multiples of the numbers that the tracked cells began with, modulo 2^32.
    Form(Form),
}

impl PartialEq for Word {
    ghost use Rattle.domain_affine_base.specs.Same.{same_word_partial};
    ghost use Rattle.domain_affine_base.specs.Words.{same_word};

    ghost eq = { same_word };

    ghost laws = { same_word_partial };

    fn eq(&self, other: &Word) -> bool {
        match (self, other) {
            (Word::Any, Word::Any) => true,
            (Word::Const(m), Word::Const(n)) => m == n,
            (Word::Form(f), Word::Form(g)) => f == g,
            _ => false,
        }
    }
}

impl Eq for Word {
    ghost use Rattle.domain_affine_base.specs.Same.{same_word_equiv};

    ghost laws = { same_word_equiv };
}

impl Hash for Word {
    ghost use Rattle.std.proofs.Common.{ap};
    ghost use Rattle.domain_affine_base.specs.Same.{fed_word, same_word_is};

    ghost hash_input = { fed_word };

    ghost respects_eq = { λ x y e. ap fed_word (same_word_is x y e) };

    fn hash<H: Hasher>(&self, state: &mut H) {
        match self {
            Word::Any => 0u32.hash(state),
            Word::Const(n) => n.hash(state),
            Word::Form(f) => f.hash(state),
        }
    }
}

impl Word {
    /// The word of a form: a form without multiples is its constant.
    pub fn of_form(form: Form) -> Word
        ensures value { result ≡ word_of form }
        ensures fits { (k : ℕ) → length form ≡ k + 1 → Fits k 32 result }
    {
        if is_constant(&form.c) {
            Word::Const(constant_of(&form.c) as u64)
        } else {
            Word::Form(form)
        }
    }

    /// The same word once more.
    pub(crate) fn copy(&self, alloc: Global) -> Result<Word, NoMemory>
        ensures { IfOk result (λ r. r ≡ self.now) }
    {
        match self {
            Word::Any => Ok(Word::Any),
            Word::Const(n) => Ok(Word::Const(*n)),
            Word::Form(form) => Ok(Word::Form(copy_form(alloc, form)?)),
        }
    }
}
