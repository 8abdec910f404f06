//! Tables of cells, and the verdicts on them.

ghost use Rattle.std.specs.Prelude.{IfOk};
ghost use Rattle.fixpoint_theory.specs.Table.{TableFits};
ghost use Rattle.fixpoint_theory.specs.Views.{listings};
ghost use Rattle.test_analysis_cases.specs.Cuts.{IsCut};

use crate::changes::{Change, changed};
use abstract_value::AbstractValue;
use analysis_transfer::ImageAnalysis;
use domain_cells::StateDomain;
use domain_trait::Domain;
use fixpoint_theory::{Analyser, Table};
use spec_ir::Spec;
use std::alloc::{AllocError as NoMemory, Global};
use std::sync::ledger::Ledger;
use support_step_counter::Steps;
use test_analysis_cases::{
    Cut, Notation, Reporter, push_cells, push_checked, push_cut, with_block,
};
use text_words::BaseText;

/// Appends the verdict on a table with one thing changed in the block that was cut out; where nothing would be other, nothing is
/// appended. Answers that table and the block.
fn push_change<'a, D: Domain, N: Notation<D>, L: Ledger>(
    alloc: Global,
    out: &mut String,
    it: &ImageAnalysis<'a, D>,
    cut: Cut<D::Element>,
    change: Change,
    steps: &mut Steps<L>,
) -> Result<Cut<D::Element>, NoMemory>
    requires ready { ⟦<ImageAnalysis<'a, D> as Analyser>⟧.IsReady it.now }
    requires cut { IsCut ⟦<ImageAnalysis<'a, D> as Analyser>⟧.view (⟦<ImageAnalysis<'a, D> as Analyser>⟧.analysis it.now) cut }
    ensures { IfOk result (λ c. IsCut ⟦<ImageAnalysis<'a, D> as Analyser>⟧.view (⟦<ImageAnalysis<'a, D> as Analyser>⟧.analysis it.now) c) }
{
    let Some(other) = changed(alloc, it, &cut.block, change)? else {
        return Ok(cut);
    };
    let Cut { table, at, block } = cut;
    let table = with_block(it, table, at, other)?;
    push_checked::<D, N, L>(alloc, out, change.text(), it, &table, steps)?;
    Ok(Cut { table, at, block })
}

/// Appends a table, and the verdicts on it, on it without its last block, and with one thing after another changed there.
fn push_changes<'a, D: Domain, N: Notation<D>, L: Ledger>(
    alloc: Global,
    out: &mut String,
    it: &ImageAnalysis<'a, D>,
    table: Table<D::Element>,
    steps: &mut Steps<L>,
) -> Result<(), NoMemory>
    requires ready { ⟦<ImageAnalysis<'a, D> as Analyser>⟧.IsReady it.now }
    requires fits { TableFits (⟦<ImageAnalysis<'a, D> as Analyser>⟧.analysis it.now) (listings ⟦<ImageAnalysis<'a, D> as Analyser>⟧.view table) }
{
    let Some(cut) = push_cut::<D, N, L>(alloc, out, it, table, steps)? else {
        return Ok(());
    };
    let cut = push_change::<D, N, L>(alloc, out, it, cut, Change::WithoutTarget, steps)?;
    let cut = push_change::<D, N, L>(alloc, out, it, cut, Change::WithoutUse, steps)?;
    let cut = push_change::<D, N, L>(alloc, out, it, cut, Change::WithExit, steps)?;
    push_change::<D, N, L>(alloc, out, it, cut, Change::WithEntry, steps)?;
    Ok(())
}

/// Says of a table of cells what `push_changes` does.
pub(crate) struct Cells;

impl<B: BaseText> Notation<StateDomain<B>> for Cells {
    fn push_word(out: &mut String, w: u32, x: &B::Word) -> Result<(), NoMemory> {
        B::push_word(out, w, x)
    }

    fn push_element(
        _alloc: Global,
        out: &mut String,
        spec: &Spec,
        x: &Vec<AbstractValue<B>>,
    ) -> Result<(), NoMemory> {
        push_cells::<B>(out, spec, x)
    }
}

impl<B: BaseText> Reporter<StateDomain<B>> for Cells {
    fn push_results<'a, L: Ledger>(
        &self,
        alloc: Global,
        out: &mut String,
        it: &ImageAnalysis<'a, StateDomain<B>>,
        table: Table<Vec<AbstractValue<B>>>,
        steps: &mut Steps<L>,
    ) -> Result<(), NoMemory>
        requires ready { ⟦<ImageAnalysis<'a, StateDomain<B>> as Analyser>⟧.IsReady it.now }
        requires fits { TableFits (⟦<ImageAnalysis<'a, StateDomain<B>> as Analyser>⟧.analysis it.now) (listings ⟦<ImageAnalysis<'a, StateDomain<B>> as Analyser>⟧.view table) }
    {
        push_changes::<StateDomain<B>, Cells, L>(alloc, out, it, table, steps)
    }
}
