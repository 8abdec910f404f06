//! Tables, and the verdicts on them, also with another element at an address.

ghost use Rattle.std.specs.Prelude.{◌≡◌};
ghost use Rattle.fixpoint_theory.specs.Table.{TableFits};
ghost use Rattle.fixpoint_theory.specs.Views.{listings};
ghost use Rattle.test_analysis_cases.specs.Cuts.{IsCut};

use crate::domains::ShownDomain;
use analysis_transfer::ImageAnalysis;
use base_trait::Base;
use domain_trait::Domain;
use fixpoint_theory::{Analyser, Block, Table};
use spec_ir::Spec;
use std::alloc::{AllocError as NoMemory, Global};
use std::sync::ledger::Ledger;
use support_step_counter::Steps;
use test_analysis_cases::{
    Cut, Notation, Reporter, Unread, push_checked, push_cut, with_block, without,
};

/// An element for an address, as text.
#[derive(Clone, Copy)]
pub struct Replacement<'a> {
    pub at: u32,
    pub text: &'a str,
}

/// A block without its last exit, or else without its last next address.
fn shorter<E>(mut block: Block<E>) -> Block<E>
    ensures { result.elem ≡ block.elem }
{
    if block.exits.pop().is_none() {
        block.next.pop();
    }
    block
}

/// A block with another element.
fn with_element<E: Drop>(mut block: Block<E>, elem: E) -> Block<E>
    ensures { result.elem ≡ elem }
{
    block.elem = elem;
    block
}

/// Appends the table and the verdicts on it, on the table without its last block, and on it without a target of that block.
fn push_verdicts<'a, D: ShownDomain, L: Ledger>(
    alloc: Global,
    out: &mut String,
    it: &ImageAnalysis<'a, D>,
    table: Table<D::Element>,
    steps: &mut Steps<L>,
) -> Result<(), NoMemory>
    requires ready { ⟦<ImageAnalysis<'a, D> as Analyser>⟧.IsReady it.now }
    requires fits { TableFits (⟦<ImageAnalysis<'a, D> as Analyser>⟧.analysis it.now) (listings ⟦<ImageAnalysis<'a, D> as Analyser>⟧.view table) }
{
    let found = push_cut::<D, Relations<'_>, L>(alloc, out, it, table, steps)?;
    let Some(Cut { table, at, block }) = found else {
        return Ok(());
    };
    let table = with_block(it, table, at, shorter(block))?;
    push_checked::<D, Relations<'_>, L>(alloc, out, "without a target: ", it, &table, steps)
}

/// Appends whether an element absorbs its replacement, and the other way round, and the verdict on the table with the replacement.
fn push_compared<'a, D: ShownDomain, L: Ledger>(
    alloc: Global,
    out: &mut String,
    it: &ImageAnalysis<'a, D>,
    absorbed: (bool, bool),
    table: &Table<D::Element>,
    steps: &mut Steps<L>,
) -> Result<(), NoMemory>
    requires ready { ⟦<ImageAnalysis<'a, D> as Analyser>⟧.IsReady it.now }
    requires fits { TableFits (⟦<ImageAnalysis<'a, D> as Analyser>⟧.analysis it.now) (listings ⟦<ImageAnalysis<'a, D> as Analyser>⟧.view table.now) }
{
    let (more, less) = absorbed;
    writeln!(out, "  absorbs {more} {less}")?;
    push_checked::<D, Relations<'_>, L>(alloc, out, "in its place: ", it, table, steps)
}

/// Replaces the element of a block, and appends what that gives.
fn push_replaced<'a, D: ShownDomain, L: Ledger>(
    alloc: Global,
    out: &mut String,
    it: &ImageAnalysis<'a, D>,
    cut: Cut<D::Element>,
    elem: D::Element,
    steps: &mut Steps<L>,
) -> Result<(), NoMemory>
    requires ready { ⟦<ImageAnalysis<'a, D> as Analyser>⟧.IsReady it.now }
    requires cut { IsCut ⟦<ImageAnalysis<'a, D> as Analyser>⟧.view (⟦<ImageAnalysis<'a, D> as Analyser>⟧.analysis it.now) cut }
    requires elem { (⟦<ImageAnalysis<'a, D> as Analyser>⟧.analysis it.now).elements.fits (⟦<ImageAnalysis<'a, D> as Analyser>⟧.view elem) }
{
    let more = it.absorbs(&cut.block.elem, &elem);
    let less = it.absorbs(&elem, &cut.block.elem);
    let Cut { table, at, block } = cut;
    let table = with_block(it, table, at, with_element(block, elem))?;
    push_compared(alloc, out, it, (more, less), &table, steps)
}

/// Appends that an element was not read, if memory sufficed.
fn push_unread(out: &mut String, error: Unread) -> Result<(), NoMemory> {
    match error {
        Unread::No(_) => out.push_str("  no element\n"),
        Unread::NoMemory => Err(NoMemory),
    }
}

/// The same of an element's text.
fn push_replacement<'a, D: ShownDomain, L: Ledger>(
    alloc: Global,
    out: &mut String,
    it: &ImageAnalysis<'a, D>,
    table: Table<D::Element>,
    by: Replacement<'_>,
    steps: &mut Steps<L>,
) -> Result<(), NoMemory>
    requires ready { ⟦<ImageAnalysis<'a, D> as Analyser>⟧.IsReady it.now }
    requires fits { TableFits (⟦<ImageAnalysis<'a, D> as Analyser>⟧.analysis it.now) (listings ⟦<ImageAnalysis<'a, D> as Analyser>⟧.view table) }
{
    let Some(cut) = without(it, table, by.at) else {
        return out.push_str("  no block\n");
    };
    match it.domain.element(alloc, it.spec, by.text) {
        Ok(elem) => push_replaced(alloc, out, it, cut, elem, steps),
        Err(error) => {
            drop(cut);
            push_unread(out, error)
        }
    }
}

/// Says of a table its blocks and the verdicts on it; or else, where there is a replacement, what that makes of it.
#[derive(Drop)]
pub(crate) struct Relations<'a> {
    pub(crate) by: Option<Replacement<'a>>,
}

impl<'b, D: ShownDomain> Notation<D> for Relations<'b> {
    fn push_word(out: &mut String, w: u32, x: &<D::B as Base>::Word) -> Result<(), NoMemory> {
        D::push_word(out, w, x)
    }

    fn push_element(
        alloc: Global,
        out: &mut String,
        spec: &Spec,
        x: &D::Element,
    ) -> Result<(), NoMemory> {
        D::push_shown(alloc, out, spec, x)
    }
}

impl<'b, D: ShownDomain> Reporter<D> for Relations<'b> {
    fn push_results<'a, L: Ledger>(
        &self,
        alloc: Global,
        out: &mut String,
        it: &ImageAnalysis<'a, D>,
        table: Table<D::Element>,
        steps: &mut Steps<L>,
    ) -> Result<(), NoMemory>
        requires ready { ⟦<ImageAnalysis<'a, D> as Analyser>⟧.IsReady it.now }
        requires fits { TableFits (⟦<ImageAnalysis<'a, D> as Analyser>⟧.analysis it.now) (listings ⟦<ImageAnalysis<'a, D> as Analyser>⟧.view table) }
    {
        match self.by {
            Some(by) => push_replacement(alloc, out, it, table, by, steps),
            None => push_verdicts(alloc, out, it, table, steps),
        }
    }
}
