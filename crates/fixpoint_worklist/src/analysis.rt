//! Worklist analysis.

ghost use Rattle.std.specs.Prelude.{◌≡◌, ◌+◌, ◌*◌, ◌≤◌, ℕ, List, None, IfOk, OnOk, vec_len, length};
ghost use Rattle.base_trait.specs.Uses.{Seen};
ghost use Rattle.fixpoint_theory.specs.Analysis.{Analysis, height_of};
ghost use Rattle.fixpoint_theory.specs.Elements.{Elements};
ghost use Rattle.fixpoint_theory.specs.WorklistState.{begin};
ghost use Rattle.fixpoint_theory.specs.Runs.{IsSoundTable};
ghost use Rattle.fixpoint_theory.specs.Table.{FitsImage, IsClosed, TableFits};
ghost use Rattle.fixpoint_theory.specs.Views.{listings};
ghost use Rattle.fixpoint_worklist.specs.Fitting.{AllFit};
ghost use Rattle.fixpoint_worklist.specs.Answers.{IsAnswer};
ghost use Rattle.fixpoint_worklist.specs.Likeness.{AllLike};
ghost use Rattle.fixpoint_worklist.specs.Settled.{AreSettled, settled_in};
ghost use Rattle.fixpoint_worklist.specs.Views.{IsReached, worklist_state_in};

use crate::arrive::arrive;
use crate::report::{AnalyseError, Report};
use crate::run::run;
use crate::worklist::{Worklist, empty_worklist};
use fixpoint_theory::{Analyser, Described, Table};
use std::alloc::{AllocError as NoMemory, Global};
use std::sync::ledger::Ledger;
use support_step_counter::Steps;

/// The entry's element arrives at the entry's counter, as nothing was reached yet.
fn arrive_at_entry<A: Analyser>(
    analyser: &A,
    alloc: Global,
    work: &mut Worklist<A::Element>,
) -> Result<(), NoMemory>
    requires ready { A.IsReady analyser.now }
    requires nothing { (a : ℕ) → worklist_state_in A.view work.old a ≡ None }
    requires unsettled { (a : ℕ) → settled_in work.old a ≡ None }
    requires reached { IsReached work.old }
    ensures value { OnOk result (AllLike (A.analysis analyser.now) (worklist_state_in A.view work.new) (begin (A.analysis analyser.now))) }
    ensures fine { OnOk result (AllFit (A.analysis analyser.now) (worklist_state_in A.view work.new)) }
    ensures settled { OnOk result (AreSettled A.view (A.analysis analyser.now) work.new) }
    ensures reached { OnOk result (IsReached work.new) }
{
    let entry = analyser.entry(alloc)?;
    arrive(analyser, alloc, work, &entry, analyser.start())
}

/// Transfers the least pending address until none is pending. The table lists of each reached address what its last transfer told. What it
/// says holds of every run of the machine.
pub fn analyse<A: Described, L: Ledger>(
    alloc: Global,
    analyser: &A,
    steps: &mut Steps<L>,
) -> Result<Report<A::Element>, AnalyseError<A::Shown>>
    requires ready { A.IsReady analyser.now }
    ensures value { IsAnswer (A.analysis analyser.now) A.view result }
    ensures closed { IfOk result (λ r. IsClosed (A.analysis analyser.now) (listings A.view r.table)) }
    ensures sound { IfOk result (λ r. IsSoundTable (A.analysis analyser.now) (A.machine analyser.now) (listings A.view r.table)) }
    ensures fits { IfOk result (λ r. TableFits (A.analysis analyser.now) (listings A.view r.table)) }
    ensures image { IfOk result (λ r. FitsImage (A.analysis analyser.now) (listings A.view r.table)) }
    ensures one { IfOk result (λ r. steps.new ≡ steps.old + vec_len r.trace) }
    ensures most { steps.new ≤ steps.old + length (A.analysis analyser.now).code *
        (height_of (A.analysis analyser.now) + (A.analysis analyser.now).joins + 1) }
{
    let mut work = empty_worklist::<A>(alloc);
    arrive_at_entry(analyser, alloc, &mut work)?;
    let trace = run(analyser, alloc, &mut work, steps)?;
    let Worklist {
        blocks,
        changes: _changes,
        pending: _pending,
    } = work;
    Ok(Report {
        table: Table { blocks },
        trace,
    })
}
