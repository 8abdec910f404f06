//! Blocks with one thing changed.

ghost use Rattle.std.specs.Prelude.{IfOk, IfSome};

use base_trait::Use;
use fixpoint_theory::{Analyser, Block};
use std::alloc::{AllocError as NoMemory, Global};

/// What is other in a block.
#[derive(Clone, Copy)]
pub(crate) enum Change {
    /// The last exit is missing, or else the last next address.
    WithoutTarget,
    /// The last use is missing.
    WithoutUse,
    /// There is an exit more.
    WithExit,
    /// The element is the entry's.
    WithEntry,
}

impl Change {
    /// The words for it.
    pub(crate) fn text(self) -> &'static str {
        match self {
            Change::WithoutTarget => "without a target: ",
            Change::WithoutUse => "without a use: ",
            Change::WithExit => "with another exit: ",
            Change::WithEntry => "with the entry's element: ",
        }
    }
}

/// The uses once more.
fn copied(alloc: Global, uses: &[Use]) -> Result<Vec<Use>, NoMemory> {
    let mut out = Vec::with_capacity(alloc, uses.len())?;
    for of in uses {
        out.push(Use {
            map: of.map,
            key: of.key,
            from: of.from.clone()?,
        })?;
    }
    Ok(out)
}

/// The block with one thing changed; none, where that is nothing.
pub(crate) fn changed<A: Analyser>(
    alloc: Global,
    analyser: &A,
    block: &Block<A::Element>,
    change: Change,
) -> Result<Option<Block<A::Element>>, NoMemory>
    requires ready { A.IsReady analyser.now }
    requires elem { (A.analysis analyser.now).elements.fits (A.view block.now.elem) }
    ensures { IfOk result (λ o. IfSome o (λ b. (A.analysis analyser.now).elements.fits (A.view b.elem))) }
{
    let mut next = block.next.clone()?;
    let mut exits = block.exits.clone()?;
    let mut uses = copied(alloc, &block.uses)?;
    let is_other = match change {
        Change::WithoutTarget => exits.pop().is_some() || next.pop().is_some(),
        Change::WithoutUse => uses.pop().is_some(),
        Change::WithExit => {
            exits.push(u32::MAX)?;
            true
        }
        Change::WithEntry => true,
    };
    if !is_other {
        return Ok(None);
    }
    let elem = match change {
        Change::WithEntry => analyser.entry(alloc)?,
        _ => analyser.copy(alloc, &block.elem)?,
    };
    Ok(Some(Block {
        elem,
        next,
        exits,
        uses,
    }))
}
