//! Tables of an image, by cases.

ghost use Rattle.std.specs.Prelude.{◌≡◌, ◌+◌, ◌*◌, ◌≤◌, ◌↔◌, IfOk, vec_len, length};
ghost use Rattle.std.specs.BTreeMap.{btree_map_len};
ghost use Rattle.fixpoint_theory.specs.Analysis.{height_of};
ghost use Rattle.fixpoint_theory.specs.Table.{FitsImage, IsClosed, TableFits};
ghost use Rattle.fixpoint_theory.specs.Verdicts.{verdict_of};
ghost use Rattle.fixpoint_theory.specs.Views.{listings};
ghost use Rattle.analysis_transfer_laws.specs.Runs.{IsTrueOfRuns};
ghost use Rattle.analysis_transfer.specs.Analysis.{IsReady, problem};
ghost use Rattle.analysis_cuts.specs.Analysis.{cut_analysis};
ghost use Rattle.fixpoint_worklist.specs.Answers.{IsAnswer};

use crate::cut_analysis::CutAnalysis;
use analysis_transfer::ImageAnalysis;
use base_trait::Base;
use domain_trait::Domain;
use fixpoint_case_leaves::ByCases;
use fixpoint_theory::{Table, Verdict};
use fixpoint_worklist::{AnalyseError, Report};
use std::alloc::{AllocError as NoMemory, Global};
use std::sync::ledger::Ledger;
use support_step_counter::Steps;

/// The table of an image's analysis by cases, with its trace. Elements are split as often over as the analysis says.
///
/// The table is true of the runs of the machine from every state that the entry describes: the element at each address describes
/// every state that the meaning puts there, and each use list holds every definition that a read sees.
pub fn analyse<'a, D: Domain, L: Ledger>(
    alloc: Global,
    analysis: &ImageAnalysis<'a, D>,
    steps: &mut Steps<L>,
) -> Result<Report<D::Element>, AnalyseError<<D::B as Base>::Word>>
    requires ready { IsReady analysis.now D.B.algebra (D.is_for analysis.now.domain.now) }
    ensures value { IsAnswer (cut_analysis D.B.algebra D.B.CAP (D.elements analysis.now.domain.now) (D.meaning analysis.now.domain.now) (D.pieces analysis.now.domain.now) (problem analysis.now)) D.view result }
    ensures closed { IfOk result (λ r. IsClosed (cut_analysis D.B.algebra D.B.CAP (D.elements analysis.now.domain.now) (D.meaning analysis.now.domain.now) (D.pieces analysis.now.domain.now) (problem analysis.now)) (listings D.view r.table)) }
    ensures runs { IfOk result (λ r. IsTrueOfRuns D.B.algebra (D.elements analysis.now.domain.now) (problem analysis.now) (listings D.view r.table)) }
    ensures fits { IfOk result (λ r. TableFits (cut_analysis D.B.algebra D.B.CAP (D.elements analysis.now.domain.now) (D.meaning analysis.now.domain.now) (D.pieces analysis.now.domain.now) (problem analysis.now)) (listings D.view r.table)) }
    ensures image { IfOk result (λ r. FitsImage (cut_analysis D.B.algebra D.B.CAP (D.elements analysis.now.domain.now) (D.meaning analysis.now.domain.now) (D.pieces analysis.now.domain.now) (problem analysis.now)) (listings D.view r.table)) }
    ensures one { IfOk result (λ r. steps.new ≡ steps.old + vec_len r.trace) }
    ensures most { steps.new ≤ steps.old + length (problem analysis.now).addresses *
        (height_of (cut_analysis D.B.algebra D.B.CAP (D.elements analysis.now.domain.now) (D.meaning analysis.now.domain.now) (D.pieces analysis.now.domain.now) (problem analysis.now)) + (problem analysis.now).joins + 1) }
{
    let split = CutAnalysis { of: analysis };
    let by_cases = ByCases {
        of: &split,
        depth: analysis.cases,
    };
    fixpoint_worklist::analyse(alloc, &by_cases, steps)
}

/// The verdict on a table of an image, made here or elsewhere, by the transfers of cases.
///
/// An accepted table is true of the runs of the machine from every state that the entry describes: the element at each address
/// describes every state that the meaning puts there, and each use list holds every definition that a read sees.
pub fn check<'a, D: Domain, L: Ledger>(
    alloc: Global,
    analysis: &ImageAnalysis<'a, D>,
    table: &Table<D::Element>,
    steps: &mut Steps<L>,
) -> Result<Verdict<<D::B as Base>::Word>, NoMemory>
    requires ready { IsReady analysis.now D.B.algebra (D.is_for analysis.now.domain.now) }
    requires table { TableFits (cut_analysis D.B.algebra D.B.CAP (D.elements analysis.now.domain.now) (D.meaning analysis.now.domain.now) (D.pieces analysis.now.domain.now) (problem analysis.now)) (listings D.view table.now) }
    ensures value { IfOk result (λ v. v ≡ verdict_of (cut_analysis D.B.algebra D.B.CAP (D.elements analysis.now.domain.now) (D.meaning analysis.now.domain.now) (D.pieces analysis.now.domain.now) (problem analysis.now)) (listings D.view table.now)) }
    ensures accepted { IfOk result (λ v. (v ≡ Verdict.Accepted) ↔ IsClosed (cut_analysis D.B.algebra D.B.CAP (D.elements analysis.now.domain.now) (D.meaning analysis.now.domain.now) (D.pieces analysis.now.domain.now) (problem analysis.now))
        (listings D.view table.now)) }
    ensures runs { IfOk result (λ v. v ≡ Verdict.Accepted → IsTrueOfRuns D.B.algebra (D.elements analysis.now.domain.now) (problem analysis.now)
        (listings D.view table.now)) }
    ensures one { IfOk result (λ v. v ≡ Verdict.Accepted → steps.new ≡ steps.old + btree_map_len table.now.blocks) }
    ensures most { steps.new ≤ steps.old + btree_map_len table.now.blocks }
{
    let split = CutAnalysis { of: analysis };
    let by_cases = ByCases {
        of: &split,
        depth: analysis.cases,
    };
    fixpoint_table_check::check(alloc, &by_cases, table, steps)
}
