//! How a program writes what analyses give.

ghost use Rattle.fixpoint_theory.specs.Table.{TableFits};
ghost use Rattle.fixpoint_theory.specs.Views.{listings};

use analysis_transfer::ImageAnalysis;
use base_trait::Base;
use domain_trait::Domain;
use fixpoint_theory::{Analyser, Table};
use spec_ir::Spec;
use std::alloc::{AllocError as NoMemory, Global};
use std::sync::ledger::Ledger;
use support_step_counter::Steps;

/// How the words and the elements of a domain are written.
pub trait Notation<D: Domain> {
    /// Appends a word of a width in bits.
    fn push_word(out: &mut String, w: u32, x: &<D::B as Base>::Word) -> Result<(), NoMemory>;

    /// Appends an element, as lines.
    fn push_element(
        alloc: Global,
        out: &mut String,
        spec: &Spec,
        x: &D::Element,
    ) -> Result<(), NoMemory>;
}

/// Says what analyses in a domain give.
pub trait Reporter<D: Domain>: Notation<D> {
    /// Appends what is to be said of the table of an analysis.
    fn push_results<'a, L: Ledger>(
        &self,
        alloc: Global,
        out: &mut String,
        it: &ImageAnalysis<'a, D>,
        table: Table<D::Element>,
        steps: &mut Steps<L>,
    ) -> Result<(), NoMemory>
        requires ready { ⟦<ImageAnalysis<'a, D> as Analyser>⟧.IsReady it.now }
        requires fits { TableFits (⟦<ImageAnalysis<'a, D> as Analyser>⟧.analysis it.now) (listings ⟦<ImageAnalysis<'a, D> as Analyser>⟧.view table) };
}
