//! The members that both parts allow.

ghost use Rattle.std.specs.Prelude.{◌≡◌, IfOk, Some};
ghost use Rattle.std.specs.List.{filter};
ghost use Rattle.word_operations.specs.Width.{IsWidth};
ghost use Rattle.base_trait.specs.Lists.{items_of};

use base_trait::Base;
use std::alloc::{AllocError as NoMemory, Global};

/// The list of the numbers that the word may be.
pub(crate) fn allowed<B: Base>(
    alloc: Global,
    ctx: &B::Ctx,
    w: u32,
    x: &B::Word,
    numbers: Vec<u64>,
) -> Result<Option<Vec<u64>>, NoMemory>
    requires width { IsWidth w }
    requires word { B.algebra.words.fits ctx.now w x.now }
    ensures { IfOk result (λ r. items_of r ≡ Some (filter (B.algebra.words.may ctx.now w x.now) numbers.items)) }
{
    match kept_numbers::<B>(alloc, ctx, w, x, &numbers) {
        Ok(kept) => Ok(Some(kept)),
        Err(error) => Err(error),
    }
}

/// The numbers that the word may be.
fn kept_numbers<B: Base>(
    alloc: Global,
    ctx: &B::Ctx,
    w: u32,
    x: &B::Word,
    numbers: &[u64],
) -> Result<Vec<u64>, NoMemory>
    requires width { IsWidth w }
    requires word { B.algebra.words.fits ctx.now w x.now }
    ensures { IfOk result (λ v. v.items ≡ filter (B.algebra.words.may ctx.now w x.now) numbers.now) }
{
    let mut out = Vec::new(alloc);
    for n in numbers {
        if B::may(ctx, w, x, *n) {
            out.push(*n)?;
        }
    }
    Ok(out)
}
