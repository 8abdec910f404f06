//! Analysers by cases.

ghost use Rattle.std.specs.Prelude.{◌≡◌, false, IfOk, IsTrue};
ghost use Rattle.fixpoint_theory.specs.Outcome.{IsDecoded};
ghost use Rattle.fixpoint_theory.specs.Views.{outcome};

use crate::cases::transfer_by_cases;
use crate::split::SplitAnalyser;
use fixpoint_theory::{Analyser, Described, Transferred};
use std::alloc::{AllocError as NoMemory, Global};
use std::sync::ledger::Ledger;
use support_step_counter::Steps;

/// The analyser whose elements are split before each transfer, at most `depth` times over, so that each case goes its own way.
///
/// A transfer by cases is one step, however many cases there are.
#[derive(Drop)]
pub struct ByCases<'a, A: SplitAnalyser> {
    pub of: &'a A,
    /// How often over an element is split.
    pub depth: u32,
}

/// Whether a code word had a decoding.
fn is_decoded<A: SplitAnalyser>(made: &Transferred<A::Element, A::Shown>) -> bool
    ensures decoded { IsTrue result → IsDecoded (outcome A.view made.now) }
    ensures other { result ≡ false → IsDecoded (outcome A.view made.now) → ⊥ }
{
    !matches!(made, Transferred::Undecodable { word: _word })
}

impl<'a, A: SplitAnalyser> Analyser for ByCases<'a, A> {
    ghost use Rattle.fixpoint_cases.specs.ByCases.{by_cases};
    ghost use Rattle.fixpoint_case_leaves.specs.Instance.{laws_by_cases};

    type Element = A::Element;

    type Shown = A::Shown;

    ghost Plain = { A.Plain };

    ghost view = { A.view };

    ghost State = { A.State };

    ghost IsReady = { λ it. A.IsReady it.of.now };

    ghost analysis = { λ it. by_cases (A.analysis it.of.now) (A.split it.of.now) (A.merge it.of.now) it.depth };

    ghost machine = { λ it. A.machine it.of.now };

    ghost laws = { λ it ready. laws_by_cases (A.analysis it.of.now) (A.split it.of.now) (A.merge it.of.now) it.depth (A.laws it.of.now ready) (A.splits it.of.now ready) (A.alike it.of.now ready) (A.merges it.of.now ready) };

    fn is_code(&self, at: u32) -> bool {
        self.of.is_code(at)
    }

    fn start(&self) -> u32 {
        self.of.start()
    }

    fn joins(&self) -> u32 {
        self.of.joins()
    }

    fn entry(&self, alloc: Global) -> Result<A::Element, NoMemory> {
        self.of.entry(alloc)
    }

    fn join(&self, alloc: Global, x: &A::Element, y: &A::Element) -> Result<A::Element, NoMemory> {
        self.of.join(alloc, x, y)
    }

    fn widen(
        &self,
        alloc: Global,
        old: &A::Element,
        new: &A::Element,
    ) -> Result<A::Element, NoMemory> {
        self.of.widen(alloc, old, new)
    }

    fn absorbs(&self, old: &A::Element, new: &A::Element) -> bool {
        self.of.absorbs(old, new)
    }

    fn copy(&self, alloc: Global, x: &A::Element) -> Result<A::Element, NoMemory> {
        self.of.copy(alloc, x)
    }

    fn transfer<L: Ledger>(
        &self,
        alloc: Global,
        at: u32,
        x: &A::Element,
        steps: &mut Steps<L>,
    ) -> Result<Transferred<A::Element, A::Shown>, NoMemory> {
        let made = transfer_by_cases(self.of, alloc, self.depth, at, x)?;
        if is_decoded::<A>(&made) {
            steps.tick();
        }
        Ok(made)
    }
}

impl<'a, A: SplitAnalyser> Described for ByCases<'a, A> {
    ghost use Rattle.fixpoint_case_leaves.specs.Instance.{is_sound_by_cases};

    ghost sound = { λ it ready. is_sound_by_cases (A.analysis it.of.now) (A.split it.of.now) (A.merge it.of.now) it.depth (A.machine it.of.now) (A.laws it.of.now ready) (A.splits it.of.now ready) (A.merges it.of.now ready) (A.sound it.of.now ready) };
}
