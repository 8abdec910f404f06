//! What is measured of an analysis, in a domain.

ghost use Rattle.std.specs.BTreeMap.{IsOrdered, btree_map_len};
ghost use Rattle.std.specs.Ordering.{nat_cmp};
ghost use Rattle.std.specs.Prelude.{◌≡◌, ◌≤◌, ◌+◌, IfOk, IsTrue, length};
ghost use Rattle.spec_ir.specs.Views.{specification};
ghost use Rattle.fixpoint_theory.specs.Table.{TableFits};
ghost use Rattle.fixpoint_theory.specs.Verdicts.{verdict_of};
ghost use Rattle.fixpoint_theory.specs.Views.{listings};
ghost use Rattle.state_text.specs.Reading.{entry_of};
ghost use Rattle.analysis_transfer.specs.Analysis.{IsReady, problem};
ghost use Rattle.analysis_cuts.specs.Analysis.{cut_analysis};
ghost use Rattle.program_common.specs.Outcomes.{Gives, answer_of};
ghost use Rattle.program_stress_code.specs.Summary.{measure_text};
ghost use Rattle.program_domains.specs.Measures.{listed_count, verdict_name};
ghost use Rattle.program_domain_tasks.specs.Measures.{OwnMeasures, OwnMeasureWork};
ghost use Rattle.program_domain_tasks.specs.Read.{IsRead, IsTextOf, problem_at};

use crate::prepared::prepare;
use crate::table::refusal_of_stop;
use crate::task::{AnalysisStart, Subject};
use crate::verdict::verdict_on;
use analysis_cuts::analyse;
use analysis_problems::laws::read_problems_are_well_posed;
use analysis_transfer::ImageAnalysis;
use fixpoint_theory::{Table, Verdict};
use fixpoint_worklist::Report;
use program_common::{Answer, Halt};
use program_domains::NamedDomain;
use program_stress_code::measure_text;
use std::alloc::{AllocError as NoMemory, Global};
use std::sync::ledger::Ledger;
use support_step_counter::Steps;

/// How many of these addresses a table lists.
fn count_listed<E>(table: &Table<E>, addresses: &[u32]) -> usize
    ensures { result ≡ listed_count (listings (λ x. x) table.now) addresses.now }
{
    let mut count = 0;
    for at in addresses {
        if table.blocks.contains_key(at) {
            count += 1;
        }
    }
    count
}

/// How a verdict is told.
fn verdict_name<W>(verdict: &Verdict<W>) -> &'static str
    ensures { result.now ≡ verdict_name verdict.now }
{
    match verdict {
        Verdict::Accepted => "accepted",
        Verdict::Entry
        | Verdict::Open { .. }
        | Verdict::Undecodable { .. }
        | Verdict::TooManyTargets { .. }
        | Verdict::Targets { .. }
        | Verdict::Use { .. } => "rejected",
    }
}

/// What is told of the report of an analysis: its table is checked.
fn summary_of_report<'a, D: NamedDomain, L: Ledger>(
    alloc: Global,
    it: &ImageAnalysis<'a, D>,
    report: &Report<D::Element>,
    steps: &mut Steps<L>,
) -> Result<Answer, NoMemory>
    requires ready { IsReady it.now D.B.algebra (D.is_for it.now.domain.now) }
    requires fits { TableFits (cut_analysis D.B.algebra D.B.CAP (D.elements it.now.domain.now) (D.meaning it.now.domain.now) (D.pieces it.now.domain.now) (problem it.now)) (listings D.view report.now.table) }
    ensures text { IfOk result (λ answer. IsTextOf (λ bytes. bytes ≡ measure_text (length report.now.trace.items) (listed_count (listings (λ x. x) report.now.table) (problem it.now).addresses) (verdict_name (verdict_of (cut_analysis D.B.algebra D.B.CAP (D.elements it.now.domain.now) (D.meaning it.now.domain.now) (D.pieces it.now.domain.now) (problem it.now)) (listings D.view report.now.table)))) (answer_of answer)) }
    ensures ordered { IsOrdered nat_cmp report.now.table.blocks }
    ensures work { steps.new ≤ steps.old + btree_map_len report.now.table.blocks }
{
    // (that the map is in order bounds how many blocks there are)
    let _blocks = report.table.blocks.len();
    let verdict = verdict_on::<D, L>(alloc, it, &report.table, steps)?;
    let addresses = it.image.addresses(alloc)?;
    let elements = count_listed(&report.table, &addresses);
    Ok(Answer::Text(measure_text(alloc, report.trace.len(), elements, verdict_name(&verdict))?))
}

/// What is measured of an analysis that is ready: it is made, and its table is checked.
fn measure<'a, 'b, D: NamedDomain, L: Ledger>(
    alloc: Global,
    it: &ImageAnalysis<'a, D>,
    steps: &mut Steps<L>,
) -> Result<Answer, Halt<'b>>
    requires ready { IsReady it.now D.B.algebra (D.is_for it.now.domain.now) }
    ensures gives { Gives (OwnMeasures (record { base = D.B.algebra; cap = D.B.CAP; elements = D.elements it.now.domain.now; meaning = D.meaning it.now.domain.now; pieces = D.pieces it.now.domain.now; view = D.view; IsText = D.IsText; Reads = D.Reads it.now.domain.now; word_in = D.word_in it.now.domain.now; word_text = D.word_text }) (problem it.now)) answer_of result }
    ensures work { OwnMeasureWork (record { base = D.B.algebra; cap = D.B.CAP; elements = D.elements it.now.domain.now; meaning = D.meaning it.now.domain.now; pieces = D.pieces it.now.domain.now; view = D.view; IsText = D.IsText; Reads = D.Reads it.now.domain.now; word_in = D.word_in it.now.domain.now; word_text = D.word_text }) (problem it.now) steps.old steps.new }
{
    match analyse(alloc, it, steps) {
        Ok(report) => Ok(summary_of_report::<D, L>(alloc, it, &report, steps)?),
        Err(error) => Err(refusal_of_stop::<D>(alloc, &error)),
    }
}

/// What is measured of an analysis in a domain that was made for the specification.
pub fn measure_in_domain<'a, 'b, D: NamedDomain, L: Ledger>(
    alloc: Global,
    domain: &D,
    it: &Subject<'a>,
    start: &AnalysisStart<'a>,
    steps: &mut Steps<L>,
) -> Result<Answer, Halt<'b>>
    requires joins { IsTrue D.B.algebra.joins }
    requires made { IsTrue (D.is_for domain.now (specification it.now.spec.now)) }
    requires read { IsRead (specification it.now.spec.now) start.now.machine (entry_of start.now.entry.now) }
    ensures gives { Gives (OwnMeasures (record { base = D.B.algebra; cap = D.B.CAP; elements = D.elements domain.now; meaning = D.meaning domain.now; pieces = D.pieces domain.now; view = D.view; IsText = D.IsText; Reads = D.Reads domain.now; word_in = D.word_in domain.now; word_text = D.word_text }) (problem_at (specification it.now.spec.now) it.now.image.now start.now)) answer_of result }
    ensures work { OwnMeasureWork (record { base = D.B.algebra; cap = D.B.CAP; elements = D.elements domain.now; meaning = D.meaning domain.now; pieces = D.pieces domain.now; view = D.view; IsText = D.IsText; Reads = D.Reads domain.now; word_in = D.word_in domain.now; word_text = D.word_text }) (problem_at (specification it.now.spec.now) it.now.image.now start.now) steps.old steps.new }
{
    read_problems_are_well_posed();
    it.image.is_kept();
    let with = prepare(alloc, it.spec)?;
    let analysis = ImageAnalysis {
        domain,
        spec: it.spec,
        cir: &with.cir,
        machine: start.machine,
        fields: &with.fields,
        decoder: &with.decoder,
        image: it.image,
        entry: start.entry,
        limit: start.limit,
        joins: start.joins,
        cases: start.cases,
    };
    measure::<D, L>(alloc, &analysis, steps)
}
