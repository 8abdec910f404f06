//! The addresses that a counter may be.

ghost use Rattle.std.specs.Prelude.{◌≡◌, ◌<◌, ◌^◌, ◌≤◌, All, IfOk};
ghost use Rattle.word_operations.specs.Width.{IsWidth};
ghost use Rattle.base_trait.specs.Lists.{items_of};

use base_trait::Base;
use std::alloc::{AllocError as NoMemory, Global};

/// The addresses that a counter of 32 bits may be, ascending, or none where they are more than the limit.
pub(crate) fn targets<B: Base>(
    alloc: Global,
    ctx: &B::Ctx,
    counter: &B::Word,
    limit: u32,
) -> Result<Option<Vec<u32>>, NoMemory>
    requires counter { B.algebra.words.fits ctx.now 32 counter.now }
    ensures { IfOk result (λ r. items_of r ≡ B.algebra.words.members ctx.now 32 counter.now limit) }
{
    match B::members(alloc, ctx, 32, counter, limit)? {
        Some(members) => Ok(Some(addresses(alloc, &members)?)),
        None => Ok(None),
    }
}

/// Numbers of 32 bits as addresses.
fn addresses(alloc: Global, numbers: &[u64]) -> Result<Vec<u32>, NoMemory>
    requires { All (λ n. n < 2 ^ 32) numbers.now }
    ensures { IfOk result (λ r. r.items ≡ numbers.now) }
{
    let mut out = Vec::with_capacity(alloc, numbers.len())?;
    for number in numbers {
        out.push(*number as u32)?;
    }
    Ok(out)
}
