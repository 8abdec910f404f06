//! Analyses whose tables are left open.

ghost use Rattle.std.specs.Prelude.{◌≡◌, ◌+◌, ◌*◌, ◌≤◌, ℕ, IfOk, vec_len, length};
ghost use Rattle.std.specs.BTreeMap.{btree_map_len};
ghost use Rattle.fixpoint_theory.specs.Analysis.{Analysis, height_of};
ghost use Rattle.fixpoint_theory.specs.Elements.{Elements};
ghost use Rattle.fixpoint_theory.specs.Table.{FitsImage, IsClosed, TableFits};
ghost use Rattle.fixpoint_theory.specs.Views.{listings};
ghost use Rattle.fixpoint_worklist.specs.Answers.{IsReportOf};
ghost use Rattle.fixpoint_open_tables.specs.Endings.{IsClosedButOpen, ends_in};
ghost use Rattle.fixpoint_open_tables.specs.LeftOpen.{left_open};
ghost use Rattle.fixpoint_open_tables.specs.Runs.{IsSoundUntilOpen};

use crate::block_endings::table_endings;
use crate::endings::Endings;
use crate::left_open::LeftOpen;
use fixpoint_theory::{Analyser, Described, Table};
use fixpoint_worklist::{AnalyseError, Report};
use std::alloc::{AllocError as NoMemory, Global};
use std::sync::ledger::Ledger;
use support_step_counter::Steps;

/// A table that is left open, with its trace, and how its open blocks end.
#[derive(Drop)]
pub struct OpenReport<E, W> {
    pub report: Report<E>,
    pub endings: Endings<W>,
}

/// The table of an analysis that is left open.
fn table_of<A: Described, L: Ledger>(
    alloc: Global,
    analyser: &A,
    steps: &mut Steps<L>,
) -> Result<Report<A::Element>, NoMemory>
    requires ready { A.IsReady analyser.now }
    ensures value { IfOk result (IsReportOf (left_open (A.analysis analyser.now)) A.view) }
    ensures closed { IfOk result (λ r. IsClosed (left_open (A.analysis analyser.now)) (listings A.view r.table)) }
    ensures fits { IfOk result (λ r. TableFits (A.analysis analyser.now) (listings A.view r.table)) }
    ensures image { IfOk result (λ r. FitsImage (left_open (A.analysis analyser.now)) (listings A.view r.table)) }
    ensures one { IfOk result (λ r. steps.new ≡ steps.old + vec_len r.trace) }
    ensures most { steps.new ≤ steps.old + length (A.analysis analyser.now).code *
        (height_of (A.analysis analyser.now) + (A.analysis analyser.now).joins + 1) }
{
    let open = LeftOpen { of: analyser };
    match fixpoint_worklist::analyse(alloc, &open, steps) {
        Ok(report) => Ok(report),
        Err(AnalyseError::NoMemory) => Err(NoMemory),
        Err(
            AnalyseError::Undecodable {
                at: _at,
                word: _word,
                trace: _trace,
            },
        ) => unreachable!(),
        Err(
            AnalyseError::TooManyTargets {
                at: _at,
                shown: _shown,
                trace: _trace,
            },
        ) => unreachable!(),
    }
}

/// A table has at most as many blocks as there are code words.
fn are_few<A: Analyser>(analyser: &A, table: &Table<A::Element>)
    requires ready { A.IsReady analyser.now }
    requires table { TableFits (A.analysis analyser.now) (listings A.view table.now) }
    ensures { btree_map_len table.now.blocks ≤ length (A.analysis analyser.now).code }
{
    let _entries = table.blocks.iter();
}

/// Transfers the least pending address until none is pending, as `fixpoint_worklist::analyse`; but where a word has no decoding
/// or the targets are too many, the block stands without targets, and the rest is analysed. So there is always a table.
/// What it says holds of every run of the machine up to and with the first state at an open address.
pub fn analyse<A: Described, L: Ledger>(
    alloc: Global,
    analyser: &A,
    steps: &mut Steps<L>,
) -> Result<OpenReport<A::Element, A::Shown>, NoMemory>
    requires ready { A.IsReady analyser.now }
    ensures value { IfOk result (λ r. IsReportOf (left_open (A.analysis analyser.now)) A.view r.report) }
    ensures closed { IfOk result (λ r. IsClosedButOpen (A.analysis analyser.now) (listings A.view r.report.table) (ends_in r.endings)) }
    ensures sound { IfOk result (λ r. IsSoundUntilOpen (A.analysis analyser.now) (A.machine analyser.now) (listings A.view r.report.table)
        (ends_in r.endings)) }
    ensures fits { IfOk result (λ r. TableFits (A.analysis analyser.now) (listings A.view r.report.table)) }
    ensures image { IfOk result (λ r. FitsImage (A.analysis analyser.now) (listings A.view r.report.table)) }
    ensures count { IfOk result (λ r. steps.new ≤ steps.old + (vec_len r.report.trace + btree_map_len r.report.table.blocks)) }
    ensures most { steps.new ≤ steps.old + (length (A.analysis analyser.now).code *
        (height_of (A.analysis analyser.now) + (A.analysis analyser.now).joins + 1) + length (A.analysis analyser.now).code) }
{
    let report = table_of(alloc, analyser, steps)?;
    are_few(analyser, &report.table);
    let endings = table_endings(alloc, analyser, &report.table, steps)?;
    Ok(OpenReport { report, endings })
}
