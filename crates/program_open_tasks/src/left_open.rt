//! The table of an analysis that is left open, in a domain.

ghost use Rattle.std.specs.Prelude.{IsTrue};
ghost use Rattle.support_command_line.specs.Bases.{base_text};
ghost use Rattle.spec_ir.specs.Views.{specification};
ghost use Rattle.state_text.specs.Reading.{entry_of};
ghost use Rattle.analysis_transfer.specs.Analysis.{IsReady, problem};
ghost use Rattle.program_common.specs.Outcomes.{Gives, answer_of};
ghost use Rattle.program_domains.specs.Tasks as asked;
ghost use Rattle.program_domain_tasks.specs.Own.{OwnWork};
ghost use Rattle.program_domain_tasks.specs.Read.{IsRead, problem_at};
ghost use Rattle.program_open_tasks.specs.Open.{OwnComesOpen};

use analysis_cuts::analyse_open;
use analysis_problems::laws::read_problems_are_well_posed;
use analysis_transfer::ImageAnalysis;
use fixpoint_open_tables::OpenReport;
use fixpoint_worklist::Report;
use program_common::{Answer, Halt};
use program_domain_tasks::{AnalysisStart, Subject, open_table_answer, prepare};
use program_domains::NamedDomain;
use std::alloc::Global;
use std::sync::ledger::Ledger;
use support_command_line::BaseName;
use support_step_counter::Steps;

/// What an analysis that is ready and left open comes to.
fn open_outcome<'a, 'b, D: NamedDomain, L: Ledger>(
    alloc: Global,
    it: &ImageAnalysis<'a, D>,
    base: BaseName,
    steps: &mut Steps<L>,
) -> Result<Answer, Halt<'b>>
    requires ready { IsReady it.now D.B.algebra (D.is_for it.now.domain.now) }
    ensures gives { Gives (OwnComesOpen (record { base = D.B.algebra; cap = D.B.CAP; elements = D.elements it.now.domain.now; meaning = D.meaning it.now.domain.now; pieces = D.pieces it.now.domain.now; view = D.view; IsText = D.IsText; Reads = D.Reads it.now.domain.now; word_in = D.word_in it.now.domain.now; word_text = D.word_text }) (problem it.now) it.now.image.now (base_text base)) answer_of result }
    ensures work { OwnWork (record { base = D.B.algebra; cap = D.B.CAP; elements = D.elements it.now.domain.now; meaning = D.meaning it.now.domain.now; pieces = D.pieces it.now.domain.now; view = D.view; IsText = D.IsText; Reads = D.Reads it.now.domain.now; word_in = D.word_in it.now.domain.now; word_text = D.word_text }) it.now.image.now (base_text base) (asked.analyse_open (problem it.now)) steps.old steps.new }
{
    let OpenReport {
        report: Report {
            table,
            trace: _trace,
        },
        endings,
    } = analyse_open(alloc, it, steps)?;
    Ok(open_table_answer::<D>(alloc, it.spec, it.image, base, &table, &endings)?)
}

/// What an analysis that is left open comes to in a domain that was made for the specification.
pub fn analyse_open_in_domain<'a, 'b, D: NamedDomain, L: Ledger>(
    alloc: Global,
    domain: &D,
    it: &Subject<'a>,
    start: &AnalysisStart<'a>,
    base: BaseName,
    steps: &mut Steps<L>,
) -> Result<Answer, Halt<'b>>
    requires joins { IsTrue D.B.algebra.joins }
    requires made { IsTrue (D.is_for domain.now (specification it.now.spec.now)) }
    requires read { IsRead (specification it.now.spec.now) start.now.machine (entry_of start.now.entry.now) }
    ensures gives { Gives (OwnComesOpen (record { base = D.B.algebra; cap = D.B.CAP; elements = D.elements domain.now; meaning = D.meaning domain.now; pieces = D.pieces domain.now; view = D.view; IsText = D.IsText; Reads = D.Reads domain.now; word_in = D.word_in domain.now; word_text = D.word_text }) (problem_at (specification it.now.spec.now) it.now.image.now start.now) it.now.image.now (base_text base)) answer_of result }
    ensures work { OwnWork (record { base = D.B.algebra; cap = D.B.CAP; elements = D.elements domain.now; meaning = D.meaning domain.now; pieces = D.pieces domain.now; view = D.view; IsText = D.IsText; Reads = D.Reads domain.now; word_in = D.word_in domain.now; word_text = D.word_text }) it.now.image.now (base_text base) (asked.analyse_open (problem_at (specification it.now.spec.now) it.now.image.now start.now)) steps.old steps.new }
{
    read_problems_are_well_posed();
    it.image.is_kept();
    let with = prepare(alloc, it.spec)?;
    let analysis = ImageAnalysis {
        domain,
        spec: it.spec,
        cir: &with.cir,
        machine: start.machine,
        fields: &with.fields,
        decoder: &with.decoder,
        image: it.image,
        entry: start.entry,
        limit: start.limit,
        joins: start.joins,
        cases: start.cases,
    };
    open_outcome::<D, L>(alloc, &analysis, base, steps)
}
