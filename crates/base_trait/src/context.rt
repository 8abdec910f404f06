//! What the words of one analysis share.

ghost use Rattle.std.specs.Prelude.{◌≡◌, IfOk};

use std::alloc::{AllocError as NoMemory, Global};

/// The context of a base. The context `()` has nothing to share.
pub trait Context {
    /// The same context once more: of affine forms over two tracked cells, the list of these two.
    fn copy(alloc: Global, ctx: &Self) -> Result<Self, NoMemory>
        ensures value { IfOk result (λ r. r ≡ ctx.now) };
}

impl Context for () {
    fn copy(_alloc: Global, _ctx: &()) -> Result<(), NoMemory> {
        Ok(())
    }
}

impl<A: Context + Drop, B: Context + Drop> Context for (A, B) {
    /// Both contexts once more: of the context `()` and two tracked cells, `()` and the list of these two.
    fn copy(alloc: Global, ctx: &(A, B)) -> Result<(A, B), NoMemory> {
        Ok((A::copy(alloc, &ctx.0)?, B::copy(alloc, &ctx.1)?))
    }
}
