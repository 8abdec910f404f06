//! The verdict on a table that was read with its endings, in a domain.

ghost use Rattle.std.specs.BTreeMap.{IsOrdered, btree_map_len};
ghost use Rattle.std.specs.Ordering.{nat_cmp};
ghost use Rattle.std.specs.Prelude.{◌≤◌, ◌+◌, IfOk, IsTrue};
ghost use Rattle.spec_ir.specs.Views.{specification};
ghost use Rattle.fixpoint_theory.specs.Table.{TableFits};
ghost use Rattle.fixpoint_theory.specs.Views.{listings};
ghost use Rattle.fixpoint_open_tables.specs.Endings.{ends_in};
ghost use Rattle.state_text.specs.Reading.{entry_of};
ghost use Rattle.analysis_transfer.specs.Analysis.{IsReady, problem};
ghost use Rattle.analysis_cuts.specs.Analysis.{cut_analysis};
ghost use Rattle.text_table_reader.specs.Blocks.{BlocksFit};
ghost use Rattle.text_table_reader.specs.Ends.{is_word_of};
ghost use Rattle.program_domain_tasks.specs.Read.{IsRead, problem_at};
ghost use Rattle.program_open_tasks.specs.OpenTables.{IsOwnOpenVerdict};

use analysis_cuts::check_open;
use analysis_problems::laws::read_problems_are_well_posed;
use analysis_transfer::ImageAnalysis;
use base_trait::Base;
use fixpoint_theory::Verdict;
use program_domain_tasks::{AnalysisStart, Subject, prepare};
use program_domains::NamedDomain;
use std::alloc::{AllocError as NoMemory, Global};
use std::sync::ledger::Ledger;
use support_step_counter::Steps;
use text_table_reader::OpenTable;

/// The verdict on a table with its endings, of an analysis that is ready.
fn open_verdict_on<'a, D: NamedDomain, L: Ledger>(
    alloc: Global,
    it: &ImageAnalysis<'a, D>,
    found: &OpenTable<D::Element, <D::B as Base>::Word>,
    steps: &mut Steps<L>,
) -> Result<Verdict<<D::B as Base>::Word>, NoMemory>
    requires ready { IsReady it.now D.B.algebra (D.is_for it.now.domain.now) }
    requires fits { TableFits (cut_analysis D.B.algebra D.B.CAP (D.elements it.now.domain.now) (D.meaning it.now.domain.now) (D.pieces it.now.domain.now) (problem it.now)) (listings D.view found.now.table) }
    ensures verdict { IfOk result (λ v. IsOwnOpenVerdict (record { base = D.B.algebra; cap = D.B.CAP; elements = D.elements it.now.domain.now; meaning = D.meaning it.now.domain.now; pieces = D.pieces it.now.domain.now; view = D.view; IsText = D.IsText; Reads = D.Reads it.now.domain.now; word_in = D.word_in it.now.domain.now; word_text = D.word_text }) (problem it.now) found.now.table (ends_in found.now.endings) v) }
    ensures work { steps.new ≤ steps.old + (btree_map_len found.now.table.blocks + btree_map_len found.now.table.blocks) }
{
    check_open(alloc, it, &found.table, &found.endings, steps)
}

/// The verdict on a table that was read with its endings, in a domain that was made for the specification.
pub(crate) fn open_verdict_in<'a, D: NamedDomain, L: Ledger>(
    alloc: Global,
    domain: &D,
    it: &Subject<'a>,
    start: &AnalysisStart<'a>,
    found: &OpenTable<D::Element, <D::B as Base>::Word>,
    steps: &mut Steps<L>,
) -> Result<Verdict<<D::B as Base>::Word>, NoMemory>
    requires joins { IsTrue D.B.algebra.joins }
    requires made { IsTrue (D.is_for domain.now (specification it.now.spec.now)) }
    requires read { IsRead (specification it.now.spec.now) start.now.machine (entry_of start.now.entry.now) }
    requires fits { BlocksFit (is_word_of it.now.image.now) (λ x. (D.elements domain.now).fits (D.view x)) (listings (λ x. x) found.now.table) }
    ensures verdict { IfOk result (λ v. IsOwnOpenVerdict (record { base = D.B.algebra; cap = D.B.CAP; elements = D.elements domain.now; meaning = D.meaning domain.now; pieces = D.pieces domain.now; view = D.view; IsText = D.IsText; Reads = D.Reads domain.now; word_in = D.word_in domain.now; word_text = D.word_text }) (problem_at (specification it.now.spec.now) it.now.image.now start.now) found.now.table (ends_in found.now.endings) v) }
    ensures ordered { IsOrdered nat_cmp found.now.table.blocks }
    ensures work { steps.new ≤ steps.old + (btree_map_len found.now.table.blocks + btree_map_len found.now.table.blocks) }
{
    // (that the map is in order bounds how many blocks there are)
    let _blocks = found.table.blocks.len();
    read_problems_are_well_posed();
    it.image.is_kept();
    let with = prepare(alloc, it.spec)?;
    let analysis = ImageAnalysis {
        domain,
        spec: it.spec,
        cir: &with.cir,
        machine: start.machine,
        fields: &with.fields,
        decoder: &with.decoder,
        image: it.image,
        entry: start.entry,
        limit: start.limit,
        joins: start.joins,
        cases: start.cases,
    };
    open_verdict_on::<D, L>(alloc, &analysis, found, steps)
}
