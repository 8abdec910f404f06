//! One transfer of a worklist.

ghost use Rattle.std.specs.Prelude.{◌≡◌, ◌+◌, ◌≤◌, ℕ, List, Some, None, IsTrue, IfOk, IfSome, OnOk, map, option_map};
ghost use Rattle.base_trait.specs.Lists.{Each};
ghost use Rattle.base_trait.specs.Uses.{Seen, seen};
ghost use Rattle.fixpoint_theory.specs.Analysis.{Analysis};
ghost use Rattle.fixpoint_theory.specs.Outcome.{Moves, SameOutcome, sends};
ghost use Rattle.fixpoint_theory.specs.Table.{Tells};
ghost use Rattle.fixpoint_theory.specs.Elements.{Elements};
ghost use Rattle.fixpoint_theory.specs.WorklistState.{Reached, arrive_all, arrive_as_sent, changed, done, transferred};
ghost use Rattle.fixpoint_theory.specs.Views.{arriving, outcome};
ghost use Rattle.fixpoint_worklist.specs.Fitting.{AllFit};
ghost use Rattle.fixpoint_worklist.specs.Likeness.{AllLike};
ghost use Rattle.fixpoint_worklist.specs.Settled.{AreSettled, told_listing};
ghost use Rattle.fixpoint_worklist.specs.Steps.{IsMove, IsStepped};
ghost use Rattle.fixpoint_worklist.specs.Views.{IsReached, worklist_state_in};

use crate::arrive::{arrive_as_sent, arrive_at_all};
use crate::told::Told;
use crate::worklist::{Worklist, block_at, finish};
use crate::worklist_step::WorklistStep;
use base_trait::Use;
use fixpoint_theory::{
    Analyser, Arrival, Targets, Transfer, Transferred, addresses_of, exits_of, next_of,
};
use std::alloc::{AllocError as NoMemory, Global};
use std::sync::ledger::Ledger;
use support_step_counter::Steps;

/// An address is no longer pending, this was told of its element, and the post element arrives at the targets.
fn send<A: Analyser>(
    analyser: &A,
    alloc: Global,
    work: &mut Worklist<A::Element>,
    at: u32,
    targets: &[u32],
    told: Told,
    post: Option<A::Element>,
) -> Result<(), NoMemory>
    requires ready { A.IsReady analyser.now }
    requires reached { IsReached work.old }
    requires fine { AllFit (A.analysis analyser.now) (worklist_state_in A.view work.old) }
    requires settled { AreSettled A.view (A.analysis analyser.now) work.old }
    requires told { IfSome (worklist_state_in A.view work.old at)
        (λ r. Tells (A.analysis analyser.now) (told_listing r.elem told) ((A.analysis analyser.now).transfer at r.elem)) }
    requires fits { IfSome post (λ x. (A.analysis analyser.now).elements.fits (A.view x)) }
    ensures value { OnOk result (AllLike (A.analysis analyser.now) (worklist_state_in A.view work.new)
        (arrive_all (A.analysis analyser.now) (option_map A.view post) targets.now (changed at done (worklist_state_in A.view work.old)))) }
    ensures fine { OnOk result (AllFit (A.analysis analyser.now) (worklist_state_in A.view work.new)) }
    ensures settled { OnOk result (AreSettled A.view (A.analysis analyser.now) work.new) }
    ensures reached { OnOk result (IsReached work.new) }
{
    finish::<A>(work, at, told);
    match post {
        None => Ok(()),
        Some(post) => arrive_at_all(analyser, alloc, work, &post, targets),
    }
}

/// An address is no longer pending, this was told of its element, and what cases send arrives.
fn send_arrivals<A: Analyser>(
    analyser: &A,
    alloc: Global,
    work: &mut Worklist<A::Element>,
    at: u32,
    arrivals: &[Arrival<A::Element>],
    block: Told,
) -> Result<(), NoMemory>
    requires ready { A.IsReady analyser.now }
    requires reached { IsReached work.old }
    requires fine { AllFit (A.analysis analyser.now) (worklist_state_in A.view work.old) }
    requires settled { AreSettled A.view (A.analysis analyser.now) work.old }
    requires told { IfSome (worklist_state_in A.view work.old at)
        (λ r. Tells (A.analysis analyser.now) (told_listing r.elem block) ((A.analysis analyser.now).transfer at r.elem)) }
    requires fits { Each (λ a. (A.analysis analyser.now).elements.fits a.1) (map (arriving A.view) arrivals.now) }
    ensures value { OnOk result (AllLike (A.analysis analyser.now) (worklist_state_in A.view work.new)
        (arrive_as_sent (A.analysis analyser.now) (map (arriving A.view) arrivals.now) (changed at done (worklist_state_in A.view work.old)))) }
    ensures fine { OnOk result (AllFit (A.analysis analyser.now) (worklist_state_in A.view work.new)) }
    ensures settled { OnOk result (AreSettled A.view (A.analysis analyser.now) work.new) }
    ensures reached { OnOk result (IsReached work.new) }
{
    finish::<A>(work, at, block);
    arrive_as_sent(analyser, alloc, work, arrivals)
}

/// What the transfer by cases told of an address is kept, and what the cases send arrives.
fn send_cases<A: Analyser>(
    analyser: &A,
    alloc: Global,
    work: &mut Worklist<A::Element>,
    at: u32,
    arrivals: &[Arrival<A::Element>],
    uses: Vec<Use>,
) -> Result<(), NoMemory>
    requires ready { A.IsReady analyser.now }
    requires reached { IsReached work.old }
    requires fine { AllFit (A.analysis analyser.now) (worklist_state_in A.view work.old) }
    requires settled { AreSettled A.view (A.analysis analyser.now) work.old }
    requires given { IfSome (worklist_state_in A.view work.old at) (λ r. SameOutcome (A.analysis analyser.now).elements
        (sends (map (arriving A.view) arrivals.now) (map seen uses.items)) ((A.analysis analyser.now).transfer at r.elem)) }
    requires fits { Each (λ a. (A.analysis analyser.now).elements.fits a.1) (map (arriving A.view) arrivals.now) }
    ensures value { OnOk result (AllLike (A.analysis analyser.now) (worklist_state_in A.view work.new)
        (arrive_as_sent (A.analysis analyser.now) (map (arriving A.view) arrivals.now) (changed at done (worklist_state_in A.view work.old)))) }
    ensures fine { OnOk result (AllFit (A.analysis analyser.now) (worklist_state_in A.view work.new)) }
    ensures settled { OnOk result (AreSettled A.view (A.analysis analyser.now) work.new) }
    ensures reached { OnOk result (IsReached work.new) }
{
    let addresses = addresses_of::<A>(alloc, arrivals)?;
    let next = next_of(analyser, alloc, &addresses)?;
    let exits = exits_of(analyser, alloc, &addresses)?;
    let told = Told { next, exits, uses };
    send_arrivals(analyser, alloc, work, at, arrivals, told)
}

/// Transfers what stands at an address, which is then no longer pending, and the post element arrives. What the transfer told is kept.
pub(crate) fn step<A: Analyser, L: Ledger>(
    analyser: &A,
    alloc: Global,
    work: &mut Worklist<A::Element>,
    at: u32,
    steps: &mut Steps<L>,
) -> Result<WorklistStep<A::Shown>, NoMemory>
    requires ready { A.IsReady analyser.now }
    requires reached { IsReached work.old }
    requires fine { AllFit (A.analysis analyser.now) (worklist_state_in A.view work.old) }
    requires settled { AreSettled A.view (A.analysis analyser.now) work.old }
    requires stands { (r : Reached A.Plain) × (worklist_state_in A.view work.old at ≡ Some r) }
    ensures value { IfOk result (λ s. IsStepped (A.analysis analyser.now) (worklist_state_in A.view work.old) (worklist_state_in A.view work.new) at s) }
    ensures fine { OnOk result (AllFit (A.analysis analyser.now) (worklist_state_in A.view work.new)) }
    ensures settled { OnOk result (AreSettled A.view (A.analysis analyser.now) work.new) }
    ensures reached { OnOk result (IsReached work.new) }
    ensures one { IfOk result (λ s. IsMove s → steps.new ≡ steps.old + 1) }
    ensures most { steps.new ≤ steps.old + 1 }
{
    let Some(block) = block_at::<A>(work, at) else {
        unreachable!();
    };
    let Transfer {
        targets,
        post,
        uses,
    } = match analyser.transfer(alloc, at, &block.elem, steps)? {
        Transferred::Undecodable { word } => return Ok(WorklistStep::Undecodable { word }),
        Transferred::Sent { arrivals, uses } => {
            send_cases(analyser, alloc, work, at, &arrivals, uses)?;
            return Ok(WorklistStep::Moved);
        }
        Transferred::Made(made) => made,
    };
    let targets = match targets {
        Targets::Many { shown } => return Ok(WorklistStep::TooMany { shown }),
        Targets::List(targets) => targets,
    };
    let next = next_of(analyser, alloc, &targets)?;
    let exits = exits_of(analyser, alloc, &targets)?;
    let told = Told { next, exits, uses };
    send(analyser, alloc, work, at, &targets, told, post)?;
    Ok(WorklistStep::Moved)
}
