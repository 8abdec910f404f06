//! Casts: of constants alone.

ghost use Rattle.std.specs.Prelude.{◌≡◌};
ghost use Rattle.word_operations.specs.Casts.{sext_of, trunc_of, zext_of};
ghost use Rattle.base_trait.specs.Laws.{IsExtension};
ghost use Rattle.domain_affine_base.specs.Operations.{cast_word};
ghost use Rattle.domain_affine_base.specs.Words.{IsOf};

use super::word::Word;

/// The same number; of a form any, also from 32 to 32 bits.
pub(crate) fn zext(from: u32, to: u32, x: &Word) -> Word
    requires widths { IsExtension from to }
    requires word { IsOf from x.now }
    ensures { result ≡ cast_word (zext_of from to) x.now }
{
    match x {
        Word::Const(n) => Word::Const(word_operations::zext(from, to, *n)),
        _ => Word::Any,
    }
}

/// The number of the same signed reading; of a form any.
pub(crate) fn sext(from: u32, to: u32, x: &Word) -> Word
    requires widths { IsExtension from to }
    requires word { IsOf from x.now }
    ensures { result ≡ cast_word (sext_of from to) x.now }
{
    match x {
        Word::Const(n) => Word::Const(word_operations::sext(from, to, *n)),
        _ => Word::Any,
    }
}

/// The lowest bits of the number; of a form any.
pub(crate) fn trunc(from: u32, to: u32, x: &Word) -> Word
    requires widths { IsExtension to from }
    requires word { IsOf from x.now }
    ensures { result ≡ cast_word (trunc_of from to) x.now }
{
    match x {
        Word::Const(n) => Word::Const(word_operations::trunc(from, to, *n)),
        _ => Word::Any,
    }
}
