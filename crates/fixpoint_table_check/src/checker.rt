//! The checker.

ghost use Rattle.std.specs.Prelude.{◌≡◌, ◌+◌, ◌≤◌, ◌↔◌, ℕ, List, IsTrue, IfOk, OnOk};
ghost use Rattle.std.specs.BTreeMap.{btree_map_len};
ghost use Rattle.fixpoint_theory.specs.Analysis.{Analysis};
ghost use Rattle.fixpoint_theory.specs.Elements.{Elements};
ghost use Rattle.fixpoint_theory.specs.Runs.{IsSoundTable};
ghost use Rattle.fixpoint_theory.specs.Table.{IsClosed, TableFits};
ghost use Rattle.fixpoint_theory.specs.Verdicts.{is_open, verdict_of};
ghost use Rattle.fixpoint_theory.specs.Views.{listings};

use crate::fault::fault_of;
use crate::open::is_open;
use fixpoint_theory::{Analyser, Described, Table, Verdict};
use std::alloc::{AllocError as NoMemory, Global};
use std::sync::ledger::Ledger;
use support_step_counter::Steps;

/// Whether the entry's counter is a code address at which the entry is not absorbed.
fn is_entry_open<A: Analyser>(
    analyser: &A,
    alloc: Global,
    table: &Table<A::Element>,
) -> Result<bool, NoMemory>
    requires ready { A.IsReady analyser.now }
    requires table { TableFits (A.analysis analyser.now) (listings A.view table.now) }
    ensures { IfOk result (λ b. b ≡ is_open (A.analysis analyser.now) (listings A.view table.now) (A.analysis analyser.now).entry
        (A.analysis analyser.now).start) }
{
    let entry = analyser.entry(alloc)?;
    Ok(is_open(analyser, table, &entry, analyser.start()))
}

/// Whether a table is closed, or its first part that fails: the entry, and then the blocks by their addresses, each
/// for its decoding, its number of targets, its targets, its uses, and what it reaches. What an accepted table says
/// holds of every run of the machine.
pub fn check<A: Described, L: Ledger>(
    alloc: Global,
    analyser: &A,
    table: &Table<A::Element>,
    steps: &mut Steps<L>,
) -> Result<Verdict<A::Shown>, NoMemory>
    requires ready { A.IsReady analyser.now }
    requires table { TableFits (A.analysis analyser.now) (listings A.view table.now) }
    ensures value { IfOk result (λ v. v ≡ verdict_of (A.analysis analyser.now) (listings A.view table.now)) }
    ensures accepted { IfOk result (λ v. (v ≡ Verdict.Accepted) ↔ IsClosed (A.analysis analyser.now) (listings A.view table.now)) }
    ensures sound { IfOk result (λ v. v ≡ Verdict.Accepted → IsSoundTable (A.analysis analyser.now) (A.machine analyser.now) (listings A.view table.now)) }
    ensures one { IfOk result (λ v. v ≡ Verdict.Accepted → steps.new ≡ steps.old + btree_map_len table.now.blocks) }
    ensures most { steps.new ≤ steps.old + btree_map_len table.now.blocks }
{
    if is_entry_open(analyser, alloc, table)? {
        return Ok(Verdict::Entry);
    }
    for (at, block) in table.blocks.iter() {
        if let Some(verdict) = fault_of(analyser, alloc, table, *at, block, steps)? {
            return Ok(verdict);
        }
    }
    Ok(Verdict::Accepted)
}
