//! The analysis of an image as one whose elements are split.

use crate::narrowing::split_by_first;
use analysis_choices::{CellCuts, choices_of};
use analysis_transfer::ImageAnalysis;
use analysis_uses::merged_uses;
use base_trait::{Base, Log, Use};
use domain_trait::Domain;
use fixpoint_case_leaves::SplitAnalyser;
use fixpoint_theory::{Analyser, Transferred};
use std::alloc::{AllocError as NoMemory, Global};
use std::sync::ledger::Ledger;
use support_step_counter::Steps;

/// An analysis of an image whose elements are split by what each instruction cuts.
#[derive(Drop)]
pub struct CutAnalysis<'a, D: Domain> {
    pub of: &'a ImageAnalysis<'a, D>,
}

impl<'a, D: Domain> CutAnalysis<'a, D> {
    ghost use Rattle.std.specs.Prelude.{◌≡◌, map, IfOk, IsTrue};
    ghost use Rattle.fixpoint_theory.specs.Code.{is_code};
    ghost use Rattle.analysis_transfer.specs.Analysis.{IsReady, problem};
    ghost use Rattle.analysis_choices.specs.Views.{choice};
    ghost use Rattle.analysis_cuts.specs.Analysis.{choices_at};

    /// The cells that the instruction at an address cuts, each with the numbers at which it does.
    fn choices_at(&self, alloc: Global, at: u32) -> Result<Vec<CellCuts>, NoMemory>
        requires ready { IsReady self.now.of.now D.B.algebra (D.is_for self.now.of.now.domain.now) }
        requires code { IsTrue (is_code (problem self.now.of.now).addresses at) }
        ensures { IfOk result (λ r. map choice r.items ≡ choices_at (problem self.now.of.now) at) }
    {
        let it = self.of;
        let word = it.word_at(at);
        match it.decoder.find(alloc, it.spec, word)? {
            Some(instruction) => choices_of(alloc, it.spec, it.machine, &instruction),
            None => Ok(Vec::new(alloc)),
        }
    }
}

impl<'a, D: Domain> SplitAnalyser for CutAnalysis<'a, D> {
    ghost use Rattle.semantics_values.specs.States.{State};
    ghost use Rattle.domain_laws.specs.States.{state_type};
    ghost use Rattle.analysis_transfer_laws.specs.Uses.{merged_uses};
    ghost use Rattle.analysis_transfer.specs.Analysis.{problem};
    ghost use Rattle.analysis_transfer.specs.Instance.{is_sound, keeps_the_laws};
    ghost use Rattle.analysis_cuts.specs.Analysis.{split_of};
    ghost use Rattle.analysis_cuts.specs.Instance.{states_are_alike, states_are_split, uses_merge};

    type Element = D::Element;

    type Shown = <D::B as Base>::Word;

    ghost Plain = { D.Plain };

    ghost view = { D.view };

    ghost State = { State };

    ghost IsReady = { λ it. ⟦<ImageAnalysis<'a, D> as Analyser>⟧.IsReady it.of.now };

    ghost analysis = { λ it. ⟦<ImageAnalysis<'a, D> as Analyser>⟧.analysis it.of.now };

    ghost machine = { λ it. ⟦<ImageAnalysis<'a, D> as Analyser>⟧.machine it.of.now };

    ghost split = { λ it. split_of (problem it.of.now) (D.elements it.of.now.domain.now) (D.pieces it.of.now.domain.now) };

    ghost merge = { λ it. merged_uses (state_type (problem it.of.now).spec).fields };

    ghost laws = { λ it ready. keeps_the_laws D.B.algebra D.B.laws D.B.CAP (D.elements it.of.now.domain.now) (D.meaning it.of.now.domain.now) (D.is_for it.of.now.domain.now) it.of.now (D.laws it.of.now.domain.now (problem it.of.now).spec ready.made) ready };

    ghost sound = { λ it ready. is_sound D.B.algebra D.B.laws D.B.CAP (D.elements it.of.now.domain.now) (D.meaning it.of.now.domain.now) (D.is_for it.of.now.domain.now) it.of.now (D.laws it.of.now.domain.now (problem it.of.now).spec ready.made) ready };

    ghost splits = { λ it ready. states_are_split (D.elements it.of.now.domain.now) (D.laws it.of.now.domain.now (problem it.of.now).spec ready.made).elements (D.pieces it.of.now.domain.now) (D.cut_laws it.of.now.domain.now (problem it.of.now).spec ready.made) (problem it.of.now) };

    ghost alike = { λ it ready. states_are_alike (D.elements it.of.now.domain.now) (D.laws it.of.now.domain.now (problem it.of.now).spec ready.made).elements (D.pieces it.of.now.domain.now) (D.cut_laws it.of.now.domain.now (problem it.of.now).spec ready.made) (problem it.of.now) };

    ghost merges = { λ it ready. uses_merge (problem it.of.now) };

    fn is_code(&self, at: u32) -> bool {
        self.of.is_code(at)
    }

    fn start(&self) -> u32 {
        self.of.start()
    }

    fn joins(&self) -> u32 {
        Analyser::joins(self.of)
    }

    fn entry(&self, alloc: Global) -> Result<D::Element, NoMemory> {
        Analyser::entry(self.of, alloc)
    }

    fn join(&self, alloc: Global, x: &D::Element, y: &D::Element) -> Result<D::Element, NoMemory> {
        self.of.join(alloc, x, y)
    }

    fn widen(
        &self,
        alloc: Global,
        old: &D::Element,
        new: &D::Element,
    ) -> Result<D::Element, NoMemory> {
        self.of.widen(alloc, old, new)
    }

    fn absorbs(&self, old: &D::Element, new: &D::Element) -> bool {
        self.of.absorbs(old, new)
    }

    fn copy(&self, alloc: Global, x: &D::Element) -> Result<D::Element, NoMemory> {
        self.of.copy(alloc, x)
    }

    fn transfer<L: Ledger>(
        &self,
        alloc: Global,
        at: u32,
        x: &D::Element,
        steps: &mut Steps<L>,
    ) -> Result<Transferred<D::Element, <D::B as Base>::Word>, NoMemory> {
        self.of.transfer(alloc, at, x, steps)
    }

    fn split(
        &self,
        alloc: Global,
        at: u32,
        x: &D::Element,
    ) -> Result<Option<Vec<D::Element>>, NoMemory> {
        let choices = self.choices_at(alloc, at)?;
        split_by_first(alloc, self.of.domain, self.of.spec, &choices, x)
    }

    fn merged(&self, alloc: Global, uses: Vec<Use>) -> Result<Vec<Use>, NoMemory> {
        let log = Log { uses };
        merged_uses(alloc, self.of.fields, &log)
    }
}
