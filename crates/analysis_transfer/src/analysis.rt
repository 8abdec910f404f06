//! The analysis of a code image in a domain.

use base_trait::Base;
use code_image::laws::addresses_are_those_of_words;
use code_image::{Decoder, Image};
use domain_laws::Field;
use domain_trait::Domain;
use eval_code::EvaluatorCode;
use fixpoint_theory::{Analyser, Described, Transferred};
use semantics_values::Entry;
use spec_ir::{Machine, Spec};
use std::alloc::{AllocError as NoMemory, Global};
use std::sync::ledger::Ledger;
use support_step_counter::Steps;

/// What is analysed, and in which domain: the machine of a specification with its code, an image with its decoder, an entry, how
/// many targets an instruction may have, how many changes of an element join, and how often over elements are split.
#[derive(Drop)]
pub struct ImageAnalysis<'a, D: Domain> {
    pub domain: &'a D,
    pub spec: &'a Spec,
    pub cir: &'a EvaluatorCode,
    pub machine: Machine,
    /// The fields of states behind the counter.
    pub fields: &'a [Field],
    pub decoder: &'a Decoder,
    pub image: &'a Image,
    pub entry: &'a Entry,
    /// The most targets that an instruction may have.
    pub limit: u32,
    /// How many changes of an element join before later ones widen.
    pub joins: u32,
    /// How often over an element is split before its transfer, by who splits elements: the transfers here split none.
    pub cases: u32,
}

impl<'a, D: Domain> Analyser for ImageAnalysis<'a, D> {
    ghost use Rattle.semantics_values.specs.States.{State};
    ghost use Rattle.analysis_transfer_laws.specs.Analysis.{analysis_of, machine_of};
    ghost use Rattle.analysis_transfer.specs.Analysis as of;
    ghost use Rattle.analysis_transfer.specs.Analysis.{calls_of, problem};
    ghost use Rattle.analysis_transfer.specs.Instance.{keeps_the_laws};

    type Element = D::Element;

    type Shown = <D::B as Base>::Word;

    ghost Plain = { D.Plain };

    ghost view = { D.view };

    ghost State = { State };

    ghost IsReady = { λ it. of.IsReady it D.B.algebra (D.is_for it.domain.now) };

    ghost analysis = { λ it. analysis_of D.B.algebra D.B.CAP (D.elements it.domain.now) (D.meaning it.domain.now) (problem it) (calls_of D.B.algebra D.B.CAP (D.meaning it.domain.now) (problem it)) };

    ghost machine = { λ it. machine_of (problem it) };

    ghost laws = { λ it ready. keeps_the_laws D.B.algebra D.B.laws D.B.CAP (D.elements it.domain.now) (D.meaning it.domain.now) (D.is_for it.domain.now) it (D.laws it.domain.now (problem it).spec ready.made) ready };

    fn is_code(&self, at: u32) -> bool {
        self.image.is_kept();
        addresses_are_those_of_words();
        self.image.fetch(at).is_some()
    }

    fn start(&self) -> u32 {
        self.entry.pc
    }

    fn joins(&self) -> u32 {
        self.joins
    }

    fn entry(&self, alloc: Global) -> Result<D::Element, NoMemory> {
        self.domain.entry(alloc, self.spec, self.entry)
    }

    fn join(&self, alloc: Global, x: &D::Element, y: &D::Element) -> Result<D::Element, NoMemory> {
        self.domain.join(alloc, x, y)
    }

    fn widen(
        &self,
        alloc: Global,
        old: &D::Element,
        new: &D::Element,
    ) -> Result<D::Element, NoMemory> {
        self.domain.widen(alloc, old, new)
    }

    fn absorbs(&self, old: &D::Element, new: &D::Element) -> bool {
        self.domain.absorbs(old, new)
    }

    fn copy(&self, alloc: Global, x: &D::Element) -> Result<D::Element, NoMemory> {
        self.domain.copy(alloc, x)
    }

    fn transfer<L: Ledger>(
        &self,
        alloc: Global,
        at: u32,
        x: &D::Element,
        steps: &mut Steps<L>,
    ) -> Result<Transferred<D::Element, <D::B as Base>::Word>, NoMemory> {
        let word = self.word_at(at);
        match self.decoder.find(alloc, self.spec, word)? {
            Some(instruction) => {
                steps.tick();
                self.execute(alloc, at, x, word, &instruction)
            }
            None => Ok(Transferred::Undecodable { word }),
        }
    }
}

impl<'a, D: Domain> Described for ImageAnalysis<'a, D> {
    ghost use Rattle.analysis_transfer.specs.Analysis.{problem};
    ghost use Rattle.analysis_transfer.specs.Instance.{is_sound};

    ghost sound = { λ it ready. is_sound D.B.algebra D.B.laws D.B.CAP (D.elements it.domain.now) (D.meaning it.domain.now) (D.is_for it.domain.now) it (D.laws it.domain.now (problem it).spec ready.made) ready };
}
