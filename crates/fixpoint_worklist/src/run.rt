//! The transfers of an analysis, until nothing is pending.

ghost use Rattle.std.specs.Prelude.{◌≡◌, ◌+◌, ◌*◌, ◌≤◌, ℕ, List, IfOk, OnOk, vec_len, length};
ghost use Rattle.base_trait.specs.Uses.{Seen};
ghost use Rattle.fixpoint_theory.specs.Analysis.{Analysis, height_of};
ghost use Rattle.fixpoint_theory.specs.Elements.{Elements};
ghost use Rattle.fixpoint_theory.specs.WorklistState.{IsComplete, begin};
ghost use Rattle.fixpoint_worklist.specs.Fitting.{AllFit};
ghost use Rattle.fixpoint_worklist.specs.Answers.{IsRun};
ghost use Rattle.fixpoint_worklist.specs.Likeness.{AllLike};
ghost use Rattle.fixpoint_worklist.specs.Settled.{AreSettled};
ghost use Rattle.fixpoint_worklist.specs.Views.{IsReached, worklist_state_in};

use crate::report::AnalyseError;
use crate::step::step;
use crate::worklist::{Worklist, first};
use crate::worklist_step::WorklistStep;
use fixpoint_theory::Analyser;
use std::alloc::Global;
use std::sync::ledger::Ledger;
use support_step_counter::Steps;

/// Transfers the least pending address, again and again. It gives the addresses in their order.
pub(crate) fn run<A: Analyser, L: Ledger>(
    analyser: &A,
    alloc: Global,
    work: &mut Worklist<A::Element>,
    steps: &mut Steps<L>,
) -> Result<Vec<u32>, AnalyseError<A::Shown>>
    requires ready { A.IsReady analyser.now }
    requires reached { IsReached work.old }
    requires fine { AllFit (A.analysis analyser.now) (worklist_state_in A.view work.old) }
    requires settled { AreSettled A.view (A.analysis analyser.now) work.old }
    requires begun { AllLike (A.analysis analyser.now) (worklist_state_in A.view work.old) (begin (A.analysis analyser.now)) }
    ensures complete { IfOk result (λ _. IsComplete (worklist_state_in A.view work.new)) }
    ensures value { IsRun (A.analysis analyser.now) (worklist_state_in A.view work.new) result }
    ensures fine { OnOk result (AllFit (A.analysis analyser.now) (worklist_state_in A.view work.new)) }
    ensures settled { OnOk result (AreSettled A.view (A.analysis analyser.now) work.new) }
    ensures reached { OnOk result (IsReached work.new) }
    ensures one { IfOk result (λ trace. steps.new ≡ steps.old + vec_len trace) }
    ensures most { steps.new ≤ steps.old + length (A.analysis analyser.now).code * (height_of (A.analysis analyser.now) + (A.analysis analyser.now).joins + 1) }
{
    let mut trace = Vec::new(alloc);
    while let Some(at) = first::<A>(work) {
        match step(analyser, alloc, work, at, steps)? {
            WorklistStep::Moved => trace.push(at)?,
            WorklistStep::Undecodable { word } => {
                return Err(AnalyseError::Undecodable { at, word, trace });
            }
            WorklistStep::TooMany { shown } => {
                return Err(AnalyseError::TooManyTargets { at, shown, trace });
            }
        }
    }
    Ok(trace)
}
