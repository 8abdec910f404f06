//! The trait of bases whose words are cut.

ghost use Rattle.std.specs.Prelude.{◌≡◌, IfOk, IfSome};
ghost use Rattle.word_operations.specs.Width.{IsWidth};
ghost use Rattle.base_cuts.specs.Cuts.{CutLaws, Cuts};

use base_trait::Base;
use std::alloc::{AllocError as NoMemory, Global};

/// A base whose words may be cut at numbers.
///
/// `cuts` has the value of each call as a function, and `cut_laws` are what every user may rest on. Widths are in bits.
pub trait CutBase: Base {
    ghost cuts: { Cuts Self.Word Self.Ctx };

    /// What is left of a word between `low` and `high`, both included, or none where nothing is: of the interval 3 to 9
    /// between 0 and 5 it is 3 to 5, and between 10 and 20 none. It describes each number of the word that lies between,
    /// and maybe others of the word.
    fn meet(
        alloc: Global,
        ctx: &Self::Ctx,
        w: u32,
        x: &Self::Word,
        low: u64,
        high: u64,
    ) -> Result<Option<Self::Word>, NoMemory>
        requires width { IsWidth w }
        requires word { Self.algebra.words.fits ctx.now w x.now }
        ensures value { IfOk result (λ r. r ≡ cuts.meet ctx.now w x.now low high) }
        ensures fits { IfOk result (λ r. IfSome r (λ y. Self.algebra.words.fits ctx.now w y)) };

    ghost cut_laws: { CutLaws Self.algebra.words cuts };
}
