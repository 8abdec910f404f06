//! How the words of a base are written.

ghost use Rattle.std.specs.Prelude.{IfOk};
ghost use Rattle.word_operations.specs.Width.{IsWidth};

use super::read::Read;
use base_trait::Base;
use std::alloc::{AllocError as NoMemory, Global};

/// A base whose words are written in case lines.
pub trait Notation {
    type Of: Base;

    /// The word of a text, if it is one of the width.
    fn word(
        alloc: Global,
        ctx: &<Self::Of as Base>::Ctx,
        w: u32,
        text: &str,
    ) -> Read<<Self::Of as Base>::Word>
        requires { IsWidth w }
        ensures { IfOk result (λ x. Self.Of.algebra.words.fits ctx.now w x) };

    /// The text of a word.
    fn text(alloc: Global, w: u32, x: &<Self::Of as Base>::Word) -> Result<String, NoMemory>
        requires { IsWidth w };
}
