//! Tables of an image that are left open.

ghost use Rattle.std.specs.Prelude.{◌≡◌, ◌+◌, ◌*◌, ◌≤◌, ◌↔◌, IfOk, length};
ghost use Rattle.std.specs.BTreeMap.{btree_map_len};
ghost use Rattle.fixpoint_theory.specs.Analysis.{height_of};
ghost use Rattle.fixpoint_theory.specs.Table.{TableFits};
ghost use Rattle.fixpoint_theory.specs.Views.{listings};
ghost use Rattle.fixpoint_open_tables.specs.Endings.{IsClosedButOpen, ends_in};
ghost use Rattle.fixpoint_open_tables.specs.LeftOpen.{left_open};
ghost use Rattle.fixpoint_open_tables.specs.Verdicts.{IsVerdict};
ghost use Rattle.analysis_transfer.specs.Analysis.{IsReady, problem};
ghost use Rattle.analysis_cuts.specs.Analysis.{cut_analysis};
ghost use Rattle.fixpoint_worklist.specs.Answers.{IsReportOf};
ghost use Rattle.analysis_transfer_laws.specs.OpenRuns.{IsTrueUntilOpen};

use crate::cut_analysis::CutAnalysis;
use analysis_transfer::ImageAnalysis;
use base_trait::Base;
use domain_trait::Domain;
use fixpoint_case_leaves::ByCases;
use fixpoint_open_tables::{Endings, OpenReport};
use fixpoint_theory::{Table, Verdict};
use std::alloc::{AllocError as NoMemory, Global};
use std::sync::ledger::Ledger;
use support_step_counter::Steps;

/// The table of an image's analysis, with its trace, where a block is left open whose code word has no decoding, or whose instruction
/// may lead to too many addresses.
///
/// The table is true of the runs of the machine up to and with the first state at an open address, from every state that the entry
/// describes: the element at each address describes every state that the meaning puts there, and each use list holds every definition
/// that a read sees.
pub fn analyse_open<'a, D: Domain, L: Ledger>(
    alloc: Global,
    analysis: &ImageAnalysis<'a, D>,
    steps: &mut Steps<L>,
) -> Result<OpenReport<D::Element, <D::B as Base>::Word>, NoMemory>
    requires ready { IsReady analysis.now D.B.algebra (D.is_for analysis.now.domain.now) }
    ensures value { IfOk result (λ r. IsReportOf (left_open (cut_analysis D.B.algebra D.B.CAP (D.elements analysis.now.domain.now) (D.meaning analysis.now.domain.now) (D.pieces analysis.now.domain.now) (problem analysis.now))) D.view r.report) }
    ensures closed { IfOk result (λ r. IsClosedButOpen (cut_analysis D.B.algebra D.B.CAP (D.elements analysis.now.domain.now) (D.meaning analysis.now.domain.now) (D.pieces analysis.now.domain.now) (problem analysis.now)) (listings D.view r.report.table)
        (ends_in r.endings)) }
    ensures runs { IfOk result (λ r. IsTrueUntilOpen D.B.algebra (D.elements analysis.now.domain.now) (problem analysis.now)
        (listings D.view r.report.table) (ends_in r.endings)) }
    ensures fits { IfOk result (λ r. TableFits (cut_analysis D.B.algebra D.B.CAP (D.elements analysis.now.domain.now) (D.meaning analysis.now.domain.now) (D.pieces analysis.now.domain.now) (problem analysis.now)) (listings D.view r.report.table)) }
    ensures most { steps.new ≤ steps.old + (length (problem analysis.now).addresses *
        (height_of (cut_analysis D.B.algebra D.B.CAP (D.elements analysis.now.domain.now) (D.meaning analysis.now.domain.now) (D.pieces analysis.now.domain.now) (problem analysis.now)) + (problem analysis.now).joins + 1) + length (problem analysis.now).addresses) }
{
    let split = CutAnalysis { of: analysis };
    let by_cases = ByCases {
        of: &split,
        depth: analysis.cases,
    };
    fixpoint_open_tables::analyse(alloc, &by_cases, steps)
}

/// The verdict on a table of an image with the endings of its blocks, made here or elsewhere.
///
/// An accepted table is true of the runs of the machine up to and with the first state at an open address, from every state that the
/// entry describes: the element at each address describes every state that the meaning puts there, and each use list holds every
/// definition that a read sees.
pub fn check_open<'a, D: Domain, L: Ledger>(
    alloc: Global,
    analysis: &ImageAnalysis<'a, D>,
    table: &Table<D::Element>,
    endings: &Endings<<D::B as Base>::Word>,
    steps: &mut Steps<L>,
) -> Result<Verdict<<D::B as Base>::Word>, NoMemory>
    requires ready { IsReady analysis.now D.B.algebra (D.is_for analysis.now.domain.now) }
    requires table { TableFits (cut_analysis D.B.algebra D.B.CAP (D.elements analysis.now.domain.now) (D.meaning analysis.now.domain.now) (D.pieces analysis.now.domain.now) (problem analysis.now)) (listings D.view table.now) }
    ensures value { IfOk result (IsVerdict (cut_analysis D.B.algebra D.B.CAP (D.elements analysis.now.domain.now) (D.meaning analysis.now.domain.now) (D.pieces analysis.now.domain.now) (problem analysis.now)) (listings D.view table.now) (ends_in endings.now)) }
    ensures accepted { IfOk result (λ v. (v ≡ Verdict.Accepted) ↔ IsClosedButOpen (cut_analysis D.B.algebra D.B.CAP (D.elements analysis.now.domain.now) (D.meaning analysis.now.domain.now) (D.pieces analysis.now.domain.now) (problem analysis.now))
        (listings D.view table.now) (ends_in endings.now)) }
    ensures runs { IfOk result (λ v. v ≡ Verdict.Accepted → IsTrueUntilOpen D.B.algebra (D.elements analysis.now.domain.now) (problem analysis.now)
        (listings D.view table.now) (ends_in endings.now)) }
    ensures most { steps.new ≤ steps.old + (btree_map_len table.now.blocks + btree_map_len table.now.blocks) }
{
    let split = CutAnalysis { of: analysis };
    let by_cases = ByCases {
        of: &split,
        depth: analysis.cases,
    };
    fixpoint_open_tables::check(alloc, &by_cases, table, endings, steps)
}
