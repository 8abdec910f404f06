//! The table of an analysis, in a domain.

ghost use Rattle.std.specs.Prelude.{◌≡◌, ◌≤◌, ◌+◌, IfOk, IsTrue};
ghost use Rattle.std.specs.String.{string_bytes};
ghost use Rattle.support_command_line.specs.Bases.{base_text};
ghost use Rattle.spec_ir.specs.Views.{specification};
ghost use Rattle.fixpoint_theory.specs.Views.{listings};
ghost use Rattle.fixpoint_open_tables.specs.Endings.{ends_in};
ghost use Rattle.state_text.specs.Reading.{entry_of};
ghost use Rattle.analysis_transfer.specs.Analysis.{IsReady, problem};
ghost use Rattle.text_tables.specs.Open.{IsOpenTableText};
ghost use Rattle.text_tables.specs.Tables.{IsTableText};
ghost use Rattle.program_common.specs.Outcomes.{Gives, answer_of};
ghost use Rattle.program_domains.specs.Tasks as asked;
ghost use Rattle.program_domain_tasks.specs.Own.{OwnComesTo, OwnWork};
ghost use Rattle.program_domain_tasks.specs.Read.{IsRead, Refuses, IsTextOf, problem_at};

use crate::prepared::prepare;
use crate::task::{AnalysisStart, Subject};
use analysis_cuts::analyse;
use analysis_problems::laws::read_problems_are_well_posed;
use analysis_transfer::ImageAnalysis;
use base_trait::Base;
use code_image::Image;
use fixpoint_open_tables::Endings;
use fixpoint_theory::{Analyser, Table};
use fixpoint_worklist::{AnalyseError, Report};
use program_common::{Answer, Halt, Refusal};
use program_domains::NamedDomain;
use spec_ir::Spec;
use std::alloc::{AllocError as NoMemory, Global};
use std::sync::ledger::Ledger;
use support_command_line::BaseName;
use support_step_counter::Steps;
use text_tables::{open_table_text, table_text};

/// A word of a counter, as text.
pub(crate) fn counter_text<D: NamedDomain>(
    alloc: Global,
    x: &<D::B as Base>::Word,
) -> Result<String, NoMemory>
    ensures { IfOk result (λ text. string_bytes text ≡ D.word_text 32 x.now) }
{
    let mut out = String::new(alloc);
    D::push_word(&mut out, 32, x)?;
    Ok(out)
}

/// Why an analysis has no table.
pub(crate) fn refusal_of_stop<'b, D: NamedDomain>(
    alloc: Global,
    error: &AnalyseError<<D::B as Base>::Word>,
) -> Halt<'b>
    ensures { Refuses D.word_text error.now result }
{
    match error {
        AnalyseError::Undecodable { at, word, .. } => Halt::Refused(Refusal::UndecodableAt {
            at: *at,
            word: *word,
        }),
        AnalyseError::TooManyTargets { at, shown, .. } => match counter_text::<D>(alloc, shown) {
            Ok(shown) => Halt::Refused(Refusal::TooManyTargets { at: *at, shown }),
            Err(_) => Halt::NoMemory,
        },
        AnalyseError::NoMemory => Halt::NoMemory,
    }
}

/// The text of a table, headed by the name of a base.
fn table_answer<D: NamedDomain>(
    alloc: Global,
    spec: &Spec,
    image: &Image,
    base: BaseName,
    table: &Table<D::Element>,
) -> Result<Answer, NoMemory>
    ensures { IfOk result (λ answer. IsTextOf (IsTableText (D.IsText (specification spec.now)) (specification spec.now) image.now (base_text base) (listings (λ x. x) table.now)) (answer_of answer)) }
{
    Ok(Answer::Text(table_text::<D>(alloc, spec, image, base.name(), table)?))
}

/// The text of a table that is left open, headed by the name of a base.
pub fn open_table_answer<D: NamedDomain>(
    alloc: Global,
    spec: &Spec,
    image: &Image,
    base: BaseName,
    table: &Table<D::Element>,
    endings: &Endings<<D::B as Base>::Word>,
) -> Result<Answer, NoMemory>
    ensures { IfOk result (λ answer. IsTextOf (IsOpenTableText D.word_text (D.IsText (specification spec.now)) (specification spec.now) image.now (base_text base) (listings (λ x. x) table.now) (ends_in endings.now)) (answer_of answer)) }
{
    Ok(Answer::Text(open_table_text::<D>(alloc, spec, image, base.name(), table, endings)?))
}

/// What an analysis that is ready comes to.
fn table_outcome<'a, 'b, D: NamedDomain, L: Ledger>(
    alloc: Global,
    it: &ImageAnalysis<'a, D>,
    base: BaseName,
    steps: &mut Steps<L>,
) -> Result<Answer, Halt<'b>>
    requires ready { IsReady it.now D.B.algebra (D.is_for it.now.domain.now) }
    ensures gives { Gives (OwnComesTo (record { base = D.B.algebra; cap = D.B.CAP; elements = D.elements it.now.domain.now; meaning = D.meaning it.now.domain.now; pieces = D.pieces it.now.domain.now; view = D.view; IsText = D.IsText; Reads = D.Reads it.now.domain.now; word_in = D.word_in it.now.domain.now; word_text = D.word_text }) (problem it.now) it.now.image.now (base_text base)) answer_of result }
    ensures work { OwnWork (record { base = D.B.algebra; cap = D.B.CAP; elements = D.elements it.now.domain.now; meaning = D.meaning it.now.domain.now; pieces = D.pieces it.now.domain.now; view = D.view; IsText = D.IsText; Reads = D.Reads it.now.domain.now; word_in = D.word_in it.now.domain.now; word_text = D.word_text }) it.now.image.now (base_text base) (asked.analyse (problem it.now)) steps.old steps.new }
{
    match analyse(alloc, it, steps) {
        Ok(
            Report {
                table,
                trace: _trace,
            },
        ) => { Ok(table_answer::<D>(alloc, it.spec, it.image, base, &table)?) }
        Err(error) => Err(refusal_of_stop::<D>(alloc, &error)),
    }
}

/// What an analysis comes to in a domain that was made for the specification.
pub fn analyse_in_domain<'a, 'b, D: NamedDomain, L: Ledger>(
    alloc: Global,
    domain: &D,
    it: &Subject<'a>,
    start: &AnalysisStart<'a>,
    base: BaseName,
    steps: &mut Steps<L>,
) -> Result<Answer, Halt<'b>>
    requires joins { IsTrue D.B.algebra.joins }
    requires made { IsTrue (D.is_for domain.now (specification it.now.spec.now)) }
    requires read { IsRead (specification it.now.spec.now) start.now.machine (entry_of start.now.entry.now) }
    ensures gives { Gives (OwnComesTo (record { base = D.B.algebra; cap = D.B.CAP; elements = D.elements domain.now; meaning = D.meaning domain.now; pieces = D.pieces domain.now; view = D.view; IsText = D.IsText; Reads = D.Reads domain.now; word_in = D.word_in domain.now; word_text = D.word_text }) (problem_at (specification it.now.spec.now) it.now.image.now start.now) it.now.image.now (base_text base)) answer_of result }
    ensures work { OwnWork (record { base = D.B.algebra; cap = D.B.CAP; elements = D.elements domain.now; meaning = D.meaning domain.now; pieces = D.pieces domain.now; view = D.view; IsText = D.IsText; Reads = D.Reads domain.now; word_in = D.word_in domain.now; word_text = D.word_text }) it.now.image.now (base_text base) (asked.analyse (problem_at (specification it.now.spec.now) it.now.image.now start.now)) steps.old steps.new }
{
    read_problems_are_well_posed();
    it.image.is_kept();
    let with = prepare(alloc, it.spec)?;
    let analysis = ImageAnalysis {
        domain,
        spec: it.spec,
        cir: &with.cir,
        machine: start.machine,
        fields: &with.fields,
        decoder: &with.decoder,
        image: it.image,
        entry: start.entry,
        limit: start.limit,
        joins: start.joins,
        cases: start.cases,
    };
    table_outcome::<D, L>(alloc, &analysis, base, steps)
}
