//! Arrivals of elements at addresses.

ghost use Rattle.std.specs.Prelude.{◌≡◌, ◌+◌, ◌<◌, ℕ, List, Some, None, true, false, min, fold, map, nat_lt, IsTrue, IfOk, IfSome, OnOk, if◌then◌else◌};
ghost use Rattle.base_trait.specs.Lists.{Each};
ghost use Rattle.fixpoint_theory.specs.Analysis.{Analysis};
ghost use Rattle.fixpoint_theory.specs.Code.{is_code};
ghost use Rattle.fixpoint_theory.specs.Elements.{Elements};
ghost use Rattle.fixpoint_theory.specs.Views.{arriving};
ghost use Rattle.fixpoint_theory.specs.WorklistState.{arrive, arrive_all, arrive_as_sent, grown};
ghost use Rattle.fixpoint_worklist.specs.Fitting.{AllFit};
ghost use Rattle.fixpoint_worklist.specs.Likeness.{AllLike};
ghost use Rattle.fixpoint_worklist.specs.Settled.{AreSettled};
ghost use Rattle.fixpoint_worklist.specs.Views.{IsReached, worklist_state_in};

use crate::worklist::{Worklist, block_at, count_at, one_more, put_pending};
use fixpoint_theory::{Analyser, Arrival};
use std::alloc::{AllocError as NoMemory, Global};

/// What an element becomes that does not absorb a new one: its first changes join, later ones widen.
fn grow<A: Analyser>(
    analyser: &A,
    alloc: Global,
    changes: u32,
    old: &A::Element,
    new: &A::Element,
) -> Result<A::Element, NoMemory>
    requires ready { A.IsReady analyser.now }
    requires old_fits { (A.analysis analyser.now).elements.fits (A.view old.now) }
    requires new_fits { (A.analysis analyser.now).elements.fits (A.view new.now) }
    ensures value { IfOk result (λ r. (A.analysis analyser.now).elements.same (A.view r)
        (grown (A.analysis analyser.now) changes (A.view old.now) (A.view new.now))) }
    ensures fits { IfOk result (λ r. (A.analysis analyser.now).elements.fits (A.view r)) }
{
    if changes < analyser.joins() {
        analyser.join(alloc, old, new)
    } else {
        analyser.widen(alloc, old, new)
    }
}

/// A new element arrives at an address.
pub(crate) fn arrive<A: Analyser>(
    analyser: &A,
    alloc: Global,
    work: &mut Worklist<A::Element>,
    new: &A::Element,
    at: u32,
) -> Result<(), NoMemory>
    requires ready { A.IsReady analyser.now }
    requires reached { IsReached work.old }
    requires fine { AllFit (A.analysis analyser.now) (worklist_state_in A.view work.old) }
    requires settled { AreSettled A.view (A.analysis analyser.now) work.old }
    requires fits { (A.analysis analyser.now).elements.fits (A.view new.now) }
    ensures value { OnOk result (AllLike (A.analysis analyser.now) (worklist_state_in A.view work.new)
        (arrive (A.analysis analyser.now) (A.view new.now) (worklist_state_in A.view work.old) at)) }
    ensures fine { OnOk result (AllFit (A.analysis analyser.now) (worklist_state_in A.view work.new)) }
    ensures settled { OnOk result (AreSettled A.view (A.analysis analyser.now) work.new) }
    ensures reached { OnOk result (IsReached work.new) }
{
    if !analyser.is_code(at) {
        return Ok(());
    }
    let changes = count_at(&work.changes, at);
    match block_at::<A>(work, at) {
        None => {
            let elem = analyser.copy(alloc, new)?;
            put_pending::<A>(work, alloc, at, elem, 1)
        }
        Some(old) => {
            if analyser.absorbs(&old.elem, new) {
                return Ok(());
            }
            let elem = grow(analyser, alloc, changes, &old.elem, new)?;
            let changes = one_more(changes, analyser.joins());
            put_pending::<A>(work, alloc, at, elem, changes)
        }
    }
}

/// A new element arrives at each of these addresses that is a code address.
pub(crate) fn arrive_at_all<A: Analyser>(
    analyser: &A,
    alloc: Global,
    work: &mut Worklist<A::Element>,
    new: &A::Element,
    targets: &[u32],
) -> Result<(), NoMemory>
    requires ready { A.IsReady analyser.now }
    requires reached { IsReached work.old }
    requires fine { AllFit (A.analysis analyser.now) (worklist_state_in A.view work.old) }
    requires settled { AreSettled A.view (A.analysis analyser.now) work.old }
    requires fits { (A.analysis analyser.now).elements.fits (A.view new.now) }
    ensures value { OnOk result (AllLike (A.analysis analyser.now) (worklist_state_in A.view work.new)
        (arrive_all (A.analysis analyser.now) (Some (A.view new.now)) targets.now (worklist_state_in A.view work.old))) }
    ensures fine { OnOk result (AllFit (A.analysis analyser.now) (worklist_state_in A.view work.new)) }
    ensures settled { OnOk result (AreSettled A.view (A.analysis analyser.now) work.new) }
    ensures reached { OnOk result (IsReached work.new) }
{
    for to in targets {
        arrive(analyser, alloc, work, new, *to)?;
    }
    Ok(())
}

/// Each of these elements arrives at its address, where that is a code address.
pub(crate) fn arrive_as_sent<A: Analyser>(
    analyser: &A,
    alloc: Global,
    work: &mut Worklist<A::Element>,
    arrivals: &[Arrival<A::Element>],
) -> Result<(), NoMemory>
    requires ready { A.IsReady analyser.now }
    requires reached { IsReached work.old }
    requires fine { AllFit (A.analysis analyser.now) (worklist_state_in A.view work.old) }
    requires settled { AreSettled A.view (A.analysis analyser.now) work.old }
    requires fits { Each (λ a. (A.analysis analyser.now).elements.fits a.1) (map (arriving A.view) arrivals.now) }
    ensures value { OnOk result (AllLike (A.analysis analyser.now) (worklist_state_in A.view work.new)
        (arrive_as_sent (A.analysis analyser.now) (map (arriving A.view) arrivals.now) (worklist_state_in A.view work.old))) }
    ensures fine { OnOk result (AllFit (A.analysis analyser.now) (worklist_state_in A.view work.new)) }
    ensures settled { OnOk result (AreSettled A.view (A.analysis analyser.now) work.new) }
    ensures reached { OnOk result (IsReached work.new) }
{
    for sent in arrivals {
        arrive(analyser, alloc, work, &sent.elem, sent.to)?;
    }
    Ok(())
}
