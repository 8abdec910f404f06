//! Where the code of a function is written.

ghost use Rattle.std.specs.Prelude.{IfOk};
ghost use Rattle.eval_code.specs.Views.{node};
ghost use Rattle.eval_code.specs.Lowered as of;
ghost use Rattle.eval_code_lowering.specs.Writing.{Writes};

use eval_code::Node;
use std::alloc::{AllocError as NoMemory, Global};

/// The nodes of a stretch or of a tail that is being written, and the variables that are in scope.
#[derive(Drop)]
pub(crate) struct Writer {
    pub(crate) alloc: Global,
    /// The slot of each variable.
    pub(crate) scope: Vec<u32>,
    /// The slot that is written next.
    pub(crate) next: u32,
    pub(crate) nodes: Vec<Node>,
}

/// One more node; gives the slot that it writes.
pub(crate) fn put(to: &mut Writer, n: Node) -> Result<u32, NoMemory>
    ensures { IfOk result (λ r. Writes to.old to.new r (of.alone to.old.next (node n))) }
{
    let slot = to.next;
    let Some(next) = slot.checked_add(1) else {
        return Err(NoMemory);
    };
    to.nodes.push(n)?;
    to.next = next;
    Ok(slot)
}
