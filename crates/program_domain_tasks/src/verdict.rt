//! The verdict on a table that was read, in a domain.

ghost use Rattle.std.specs.BTreeMap.{IsOrdered, btree_map_len};
ghost use Rattle.std.specs.Ordering.{nat_cmp};
ghost use Rattle.std.specs.Prelude.{◌≡◌, ◌≤◌, ◌+◌, IfOk, IsTrue};
ghost use Rattle.spec_ir.specs.Views.{specification};
ghost use Rattle.fixpoint_theory.specs.Table.{TableFits};
ghost use Rattle.fixpoint_theory.specs.Views.{listings};
ghost use Rattle.state_text.specs.Reading.{entry_of};
ghost use Rattle.analysis_transfer.specs.Analysis.{IsReady, problem};
ghost use Rattle.analysis_cuts.specs.Analysis.{cut_analysis};
ghost use Rattle.text_table_reader.specs.Blocks.{BlocksFit};
ghost use Rattle.text_table_reader.specs.Ends.{is_word_of};
ghost use Rattle.program_domain_tasks.specs.Closed.{IsClosedOr};
ghost use Rattle.program_domain_tasks.specs.Own.{IsOwnVerdict};
ghost use Rattle.program_domain_tasks.specs.Read.{IsRead, problem_at};

use crate::prepared::prepare;
use crate::table::counter_text;
use crate::task::{AnalysisStart, Subject};
use analysis_cuts::check;
use analysis_problems::laws::read_problems_are_well_posed;
use analysis_transfer::ImageAnalysis;
use base_trait::Base;
use fixpoint_theory::{Table, Verdict};
use program_common::{Halt, Refusal, Rejection};
use program_domains::NamedDomain;
use std::alloc::{AllocError as NoMemory, Global};
use std::sync::ledger::Ledger;
use support_step_counter::Steps;

/// Goes on where the verdict is that a table is closed, and else refuses it.
pub fn require_closed<'b, D: NamedDomain>(
    alloc: Global,
    verdict: &Verdict<<D::B as Base>::Word>,
) -> Result<(), Halt<'b>>
    ensures { IsClosedOr D.word_text verdict.now result }
{
    match verdict {
        Verdict::Accepted => Ok(()),
        Verdict::Entry => Err(Halt::Refused(Refusal::Rejected(Rejection::Entry))),
        Verdict::Open { from, to } => Err(Halt::Refused(Refusal::Rejected(Rejection::Open {
            from: *from,
            to: *to,
        }))),
        Verdict::Undecodable { at, word } => Err(Halt::Refused(Refusal::UndecodableAt {
            at: *at,
            word: *word,
        })),
        Verdict::TooManyTargets { at, shown } => {
            let shown = counter_text::<D>(alloc, shown)?;
            Err(Halt::Refused(Refusal::TooManyTargets { at: *at, shown }))
        }
        Verdict::Targets { at } => Err(Halt::Refused(Refusal::Rejected(Rejection::Targets {
            at: *at,
        }))),
        Verdict::Use { at } => Err(Halt::Refused(Refusal::Rejected(Rejection::Use { at: *at }))),
    }
}

/// The verdict on a table, of an analysis that is ready.
pub(crate) fn verdict_on<'a, D: NamedDomain, L: Ledger>(
    alloc: Global,
    it: &ImageAnalysis<'a, D>,
    table: &Table<D::Element>,
    steps: &mut Steps<L>,
) -> Result<Verdict<<D::B as Base>::Word>, NoMemory>
    requires ready { IsReady it.now D.B.algebra (D.is_for it.now.domain.now) }
    requires fits { TableFits (cut_analysis D.B.algebra D.B.CAP (D.elements it.now.domain.now) (D.meaning it.now.domain.now) (D.pieces it.now.domain.now) (problem it.now)) (listings D.view table.now) }
    ensures verdict { IfOk result (λ v. IsOwnVerdict (record { base = D.B.algebra; cap = D.B.CAP; elements = D.elements it.now.domain.now; meaning = D.meaning it.now.domain.now; pieces = D.pieces it.now.domain.now; view = D.view; IsText = D.IsText; Reads = D.Reads it.now.domain.now; word_in = D.word_in it.now.domain.now; word_text = D.word_text }) (problem it.now) table.now v) }
    ensures work { steps.new ≤ steps.old + btree_map_len table.now.blocks }
{
    check(alloc, it, table, steps)
}

/// The verdict on a table that was read, in a domain that was made for the specification.
pub(crate) fn verdict_in<'a, D: NamedDomain, L: Ledger>(
    alloc: Global,
    domain: &D,
    it: &Subject<'a>,
    start: &AnalysisStart<'a>,
    table: &Table<D::Element>,
    steps: &mut Steps<L>,
) -> Result<Verdict<<D::B as Base>::Word>, NoMemory>
    requires joins { IsTrue D.B.algebra.joins }
    requires made { IsTrue (D.is_for domain.now (specification it.now.spec.now)) }
    requires read { IsRead (specification it.now.spec.now) start.now.machine (entry_of start.now.entry.now) }
    requires fits { BlocksFit (is_word_of it.now.image.now) (λ x. (D.elements domain.now).fits (D.view x)) (listings (λ x. x) table.now) }
    ensures verdict { IfOk result (λ v. IsOwnVerdict (record { base = D.B.algebra; cap = D.B.CAP; elements = D.elements domain.now; meaning = D.meaning domain.now; pieces = D.pieces domain.now; view = D.view; IsText = D.IsText; Reads = D.Reads domain.now; word_in = D.word_in domain.now; word_text = D.word_text }) (problem_at (specification it.now.spec.now) it.now.image.now start.now) table.now v) }
    ensures ordered { IsOrdered nat_cmp table.now.blocks }
    ensures work { steps.new ≤ steps.old + btree_map_len table.now.blocks }
{
    // (that the map is in order bounds how many blocks there are)
    let _blocks = table.blocks.len();
    read_problems_are_well_posed();
    it.image.is_kept();
    let with = prepare(alloc, it.spec)?;
    let analysis = ImageAnalysis {
        domain,
        spec: it.spec,
        cir: &with.cir,
        machine: start.machine,
        fields: &with.fields,
        decoder: &with.decoder,
        image: it.image,
        entry: start.entry,
        limit: start.limit,
        joins: start.joins,
        cases: start.cases,
    };
    verdict_on::<D, L>(alloc, &analysis, table, steps)
}
