//! What a fixed point is computed of.

ghost use Rattle.std.specs.Prelude.{◌≡◌, ◌+◌, ◌≤◌, List, IfOk, IsTrue};
ghost use Rattle.fixpoint_theory.specs.Analysis.{Analysis, AnalysisLaws};
ghost use Rattle.fixpoint_theory.specs.Code.{is_code};
ghost use Rattle.fixpoint_theory.specs.Elements.{Elements};
ghost use Rattle.fixpoint_theory.specs.Outcome.{IfPost, IsDecoded, SameOutcome};
ghost use Rattle.fixpoint_theory.specs.Runs.{Machine};
ghost use Rattle.fixpoint_theory.specs.Views.{outcome};

use crate::transfer::Transferred;
use std::alloc::{AllocError as NoMemory, Global};
use std::sync::ledger::Ledger;
use support_step_counter::Steps;

/// Elements over a code image, with an entry and a transfer.
///
/// `analysis` has the value of each call as a function, over plain elements; `laws` are what every user may rest on
/// where the analyser is ready (`IsReady`). `is_code`, `start` and `joins` may be called before that is known.
pub trait Analyser {
    /// What stands at an address.
    type Element: Drop;

    /// The words of a counter that may be too many addresses.
    type Shown: Drop;

    /// What elements are as plain data.
    ghost Plain: { Type 0 };

    ghost view: { Self.Element → Plain };

    /// The states that elements describe.
    ghost State: { Type 0 };

    /// What has to hold of an analyser before it is used.
    ghost IsReady: { Self → Type 0 };

    /// What the calls mean.
    ghost analysis: { Self → Analysis Plain Self.Shown State };

    /// The machine that is analysed.
    ghost machine: { Self → Machine State };

    /// Whether an address is that of a code word.
    fn is_code(&self, at: u32) -> bool
        ensures { result ≡ is_code (analysis self.now).code at };

    /// The entry's counter.
    fn start(&self) -> u32
        ensures { result ≡ (analysis self.now).start };

    /// How many changes of an element join before later ones widen.
    fn joins(&self) -> u32
        ensures { result ≡ (analysis self.now).joins };

    /// The entry's element: it holds of each state of the entry.
    fn entry(&self, alloc: Global) -> Result<Self::Element, NoMemory>
        requires ready { IsReady self.now }
        ensures value { IfOk result (λ r. (analysis self.now).elements.same (view r) (analysis self.now).entry) }
        ensures fits { IfOk result (λ r. (analysis self.now).elements.fits (view r)) };

    /// An element that describes what either side describes.
    fn join(
        &self,
        alloc: Global,
        x: &Self::Element,
        y: &Self::Element,
    ) -> Result<Self::Element, NoMemory>
        requires ready { IsReady self.now }
        requires left { (analysis self.now).elements.fits (view x.now) }
        requires right { (analysis self.now).elements.fits (view y.now) }
        ensures value { IfOk result (λ r. (analysis self.now).elements.same (view r) ((analysis self.now).elements.join (view x.now) (view y.now))) }
        ensures fits { IfOk result (λ r. (analysis self.now).elements.fits (view r)) };

    /// An element that describes what either side describes, such that no chain of widenings grows for ever.
    fn widen(
        &self,
        alloc: Global,
        old: &Self::Element,
        new: &Self::Element,
    ) -> Result<Self::Element, NoMemory>
        requires ready { IsReady self.now }
        requires left { (analysis self.now).elements.fits (view old.now) }
        requires right { (analysis self.now).elements.fits (view new.now) }
        ensures value { IfOk result (λ r. (analysis self.now).elements.same (view r) ((analysis self.now).elements.widen (view old.now) (view new.now))) }
        ensures fits { IfOk result (λ r. (analysis self.now).elements.fits (view r)) };

    /// Whether the old element describes all that the new one does, as far as this test tells.
    fn absorbs(&self, old: &Self::Element, new: &Self::Element) -> bool
        requires ready { IsReady self.now }
        requires left { (analysis self.now).elements.fits (view old.now) }
        requires right { (analysis self.now).elements.fits (view new.now) }
        ensures { result ≡ (analysis self.now).elements.absorbs (view old.now) (view new.now) };

    /// The element once more.
    fn copy(&self, alloc: Global, x: &Self::Element) -> Result<Self::Element, NoMemory>
        requires ready { IsReady self.now }
        requires fits { (analysis self.now).elements.fits (view x.now) }
        ensures value { IfOk result (λ r. (analysis self.now).elements.same (view r) (view x.now)) }
        ensures fits { IfOk result (λ r. (analysis self.now).elements.fits (view r)) };

    /// What the instruction at an address makes of an element. It is one step; a word without decoding is none.
    fn transfer<L: Ledger>(
        &self,
        alloc: Global,
        at: u32,
        x: &Self::Element,
        steps: &mut Steps<L>,
    ) -> Result<Transferred<Self::Element, Self::Shown>, NoMemory>
        requires ready { IsReady self.now }
        requires code { IsTrue (is_code (analysis self.now).code at) }
        requires fits { (analysis self.now).elements.fits (view x.now) }
        ensures value { IfOk result (λ r. SameOutcome (analysis self.now).elements (outcome view r) ((analysis self.now).transfer at (view x.now))) }
        ensures fits { IfOk result (λ r. IfPost (analysis self.now).elements.fits (outcome view r)) }
        ensures one { IfOk result (λ r. IsDecoded (outcome view r) → steps.new ≡ steps.old + 1) }
        ensures none { IfOk result (λ r. (IsDecoded (outcome view r) → ⊥) → steps.new ≡ steps.old) }
        ensures most { steps.new ≤ steps.old + 1 };

    /// What an analysis rests on.
    ghost laws: { (it : Self) → IsReady it → AnalysisLaws (analysis it) };
}
