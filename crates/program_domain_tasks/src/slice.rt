//! The slice of the table that a text is, in a domain.

ghost use Rattle.std.specs.Prelude.{◌≡◌, ◌<◌, ◌≤◌, ◌+◌, ◌^◌, IfOk, IsTrue, length};
ghost use Rattle.support_command_line.specs.Bases.{base_text};
ghost use Rattle.spec_ir.specs.Views.{specification};
ghost use Rattle.fixpoint_theory.specs.Views.{listings};
ghost use Rattle.state_text.specs.Reading.{entry_of};
ghost use Rattle.program_common.specs.Outcomes.{Gives, answer_of};
ghost use Rattle.program_domains.specs.Slices.{IsSliceText};
ghost use Rattle.program_domains.specs.Tasks as asked;
ghost use Rattle.program_domain_tasks.specs.Own.{OwnWork};
ghost use Rattle.program_domain_tasks.specs.Read.{IsRead, IsTextOf, problem_at};
ghost use Rattle.program_domain_tasks.specs.Slices.{OwnSlices};

use crate::closed_table::read_closed;
use crate::task::{AnalysisStart, SliceCriterion, Subject};
use crate::verdict::{require_closed, verdict_in};
use analysis_slices::slice;
use fixpoint_theory::Table;
use program_common::{Answer, Halt};
use program_domains::NamedDomain;
use spec_ir::Spec;
use std::alloc::{AllocError as NoMemory, Global};
use std::sync::ledger::Ledger;
use support_command_line::BaseName;
use support_step_counter::Steps;
use text_slices::{SliceCell, slice_text};

/// The text of the slice of a table, for the reads of a cell by the instruction at an address.
pub fn slice_bytes<E>(
    alloc: Global,
    spec: &Spec,
    table: &Table<E>,
    at: u32,
    cell: SliceCell,
) -> Result<Vec<u8>, NoMemory>
    ensures { IfOk result (λ text. IsSliceText (specification spec.now) (listings (λ x. x) table.now) at cell text.items) }
{
    let found = slice(alloc, table, at, cell.map, cell.key)?;
    Ok(slice_text(alloc, spec, at, cell, &found)?.into_bytes())
}

/// That text as an answer.
fn slice_answer<E>(
    alloc: Global,
    spec: &Spec,
    table: &Table<E>,
    at: u32,
    cell: SliceCell,
) -> Result<Answer, NoMemory>
    ensures { IfOk result (λ answer. IsTextOf (IsSliceText (specification spec.now) (listings (λ x. x) table.now) at cell) (answer_of answer)) }
{
    Ok(Answer::Text(slice_bytes(alloc, spec, table, at, cell)?))
}

/// What the slice of a text comes to in a domain that was made for the specification.
pub fn slice_in_domain<'a, 'b, D: NamedDomain, L: Ledger>(
    alloc: Global,
    domain: &D,
    it: &Subject<'a>,
    start: &AnalysisStart<'a>,
    base: BaseName,
    bytes: &[u8],
    criterion: SliceCriterion,
    steps: &mut Steps<L>,
) -> Result<Answer, Halt<'b>>
    requires joins { IsTrue D.B.algebra.joins }
    requires made { IsTrue (D.is_for domain.now (specification it.now.spec.now)) }
    requires read { IsRead (specification it.now.spec.now) start.now.machine (entry_of start.now.entry.now) }
    requires short { length bytes.now < 2 ^ 32 }
    ensures gives { Gives (OwnSlices (record { base = D.B.algebra; cap = D.B.CAP; elements = D.elements domain.now; meaning = D.meaning domain.now; pieces = D.pieces domain.now; view = D.view; IsText = D.IsText; Reads = D.Reads domain.now; word_in = D.word_in domain.now; word_text = D.word_text }) (problem_at (specification it.now.spec.now) it.now.image.now start.now) it.now.image.now (base_text base) bytes.now criterion.at criterion.cell) answer_of result }
    ensures work { OwnWork (record { base = D.B.algebra; cap = D.B.CAP; elements = D.elements domain.now; meaning = D.meaning domain.now; pieces = D.pieces domain.now; view = D.view; IsText = D.IsText; Reads = D.Reads domain.now; word_in = D.word_in domain.now; word_text = D.word_text }) it.now.image.now (base_text base) (asked.slice (problem_at (specification it.now.spec.now) it.now.image.now start.now) bytes.now criterion.at criterion.cell) steps.old steps.new }
{
    let table = read_closed::<D>(alloc, domain, it, base, bytes)?;
    let verdict = verdict_in::<D, L>(alloc, domain, it, start, &table, steps)?;
    require_closed::<D>(alloc, &verdict)?;
    Ok(slice_answer(alloc, it.spec, &table, criterion.at, criterion.cell)?)
}
