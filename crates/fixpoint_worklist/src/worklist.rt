//! The reached addresses, and those that are pending.

ghost use Rattle.std.specs.Prelude.{◌≡◌, ◌+◌, ℕ, List, Some, None, true, min, IsSome, IfSome, IfNone, IsSomeAnd, OnOk, option_map};
ghost use Rattle.std.specs.Ordering.{nat_cmp};
ghost use Rattle.std.specs.BTreeMap.{get, Updates};
ghost use Rattle.fixpoint_theory.specs.WorklistState.{IsComplete, IsLeastPending, Reached, changed, done};
ghost use Rattle.fixpoint_worklist.specs.Settled.{changed_at, settled_in, with_told};
ghost use Rattle.fixpoint_worklist.specs.Views.{IsReached, count_in, worklist_state_in};

use crate::told::Told;
use fixpoint_theory::{Analyser, Block};
use std::alloc::{AllocError as NoMemory, Global};
use std::collections::{BTreeMap, BTreeSet};

/// The block of each reached address, how often its element changed, counted up to the joins of the analysis, and the pending addresses. The
/// lists of a block are what the last transfer told; where its address is pending, they tell nothing.
#[derive(Drop)]
pub(crate) struct Worklist<E> {
    pub(crate) blocks: BTreeMap<u32, Block<E>>,
    pub(crate) changes: BTreeMap<u32, u32>,
    pub(crate) pending: BTreeSet<u32>,
}

/// Nothing is reached.
pub(crate) fn empty_worklist<A: Analyser>(alloc: Global) -> Worklist<A::Element>
    ensures value { (a : ℕ) → worklist_state_in A.view result a ≡ None }
    ensures settled { (a : ℕ) → settled_in result a ≡ None }
    ensures reached { IsReached result }
{
    Worklist {
        blocks: BTreeMap::new(alloc),
        changes: BTreeMap::new(alloc),
        pending: BTreeSet::new(alloc),
    }
}

/// The least pending address.
pub(crate) fn first<A: Analyser>(work: &Worklist<A::Element>) -> Option<u32>
    requires { IsReached work.now }
    ensures none { IfNone result (IsComplete (worklist_state_in A.view work.now)) }
    ensures least { IfSome result (λ at. (r : Reached A.Plain) × IsLeastPending (worklist_state_in A.view work.now) at r) }
{
    match work.pending.first() {
        Some(at) => Some(*at),
        None => None,
    }
}

/// The block of an address.
pub(crate) fn block_at<'a, A: Analyser>(
    work: &'a Worklist<A::Element>,
    at: u32,
) -> Option<&'a Block<A::Element>>
    ensures none { IfNone result (worklist_state_in A.view work.now at ≡ None) }
    ensures some { IfSome result (λ b. IsSomeAnd (worklist_state_in A.view work.now at)
        (λ r. (r.elem ≡ A.view b.now.elem) × (r.changes ≡ count_in work.now.changes at))) }
{
    work.blocks.get(&at)
}

/// How often the element of an address changed.
pub(crate) fn count_at(changes: &BTreeMap<u32, u32>, at: u32) -> u32
    ensures { result ≡ count_in changes.now at }
{
    match changes.get(&at) {
        Some(count) => *count,
        None => 0,
    }
}

/// One change more, counted up to the joins.
pub(crate) fn one_more(changes: u32, joins: u32) -> u32
    ensures { min result joins ≡ min (changes + 1) joins }
{
    if changes < joins {
        changes + 1
    } else {
        changes
    }
}

/// Puts the block of an address among those of a table.
pub fn put_block<E: Drop>(
    blocks: &mut BTreeMap<u32, Block<E>>,
    at: u32,
    block: Block<E>,
) -> Result<(), NoMemory>
    ensures { OnOk result (Updates nat_cmp blocks.old blocks.new at (Some block)) }
{
    match blocks.insert(at, block) {
        Ok(_) => Ok(()),
        Err(_) => Err(NoMemory),
    }
}

/// An address takes another element, which has changed so often, and is pending.
pub(crate) fn put_pending<A: Analyser>(
    work: &mut Worklist<A::Element>,
    alloc: Global,
    at: u32,
    elem: A::Element,
    changes: u32,
) -> Result<(), NoMemory>
    requires { IsReached work.old }
    ensures value { OnOk result ((a : ℕ) → worklist_state_in A.view work.new a
        ≡ changed at (λ _. Some (record { elem = A.view elem; changes = changes; pending = true })) (worklist_state_in A.view work.old) a) }
    ensures settled { OnOk result ((a : ℕ) → settled_in work.new a ≡ changed_at at None (settled_in work.old) a) }
    ensures reached { OnOk result (IsReached work.new) }
{
    let block = Block {
        elem,
        next: Vec::new(alloc),
        exits: Vec::new(alloc),
        uses: Vec::new(alloc),
    };
    put_block(&mut work.blocks, at, block)?;
    work.changes.insert(at, changes)?;
    work.pending.insert(at)?;
    Ok(())
}

/// An address is no longer pending, and this was told of its element.
pub(crate) fn finish<A: Analyser>(work: &mut Worklist<A::Element>, at: u32, told: Told)
    requires { IsReached work.old }
    ensures value { (a : ℕ) → worklist_state_in A.view work.new a ≡ changed at done (worklist_state_in A.view work.old) a }
    ensures settled { (a : ℕ) → settled_in work.new a
        ≡ changed_at at (option_map (with_told told) (get nat_cmp work.old.blocks at)) (settled_in work.old) a }
    ensures reached { IsReached work.new }
{
    work.pending.remove(&at);
    if let Some(block) = work.blocks.get_mut(&at) {
        let Told { next, exits, uses } = told;
        block.next = next;
        block.exits = exits;
        block.uses = uses;
    }
}
