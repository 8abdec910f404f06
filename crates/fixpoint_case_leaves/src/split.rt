//! Analyses whose elements are split.

ghost use Rattle.std.specs.Prelude.{◌≡◌, List, IfOk, IfSome, IsTrue, map, option_map};
ghost use Rattle.base_trait.specs.Lists.{Each};
ghost use Rattle.base_trait.specs.Uses.{Seen, seen};
ghost use Rattle.fixpoint_theory.specs.Analysis.{Analysis, AnalysisLaws};
ghost use Rattle.fixpoint_theory.specs.Code.{is_code};
ghost use Rattle.fixpoint_theory.specs.Elements.{Elements};
ghost use Rattle.fixpoint_theory.specs.Outcome.{IfPost, SameOutcome};
ghost use Rattle.fixpoint_theory.specs.Runs.{IsSound, Machine};
ghost use Rattle.fixpoint_theory.specs.Views.{outcome};
ghost use Rattle.fixpoint_cases.specs.ByCases.{MergeLaws};
ghost use Rattle.fixpoint_cases.specs.Cases.{IsSplit, Split};
ghost use Rattle.fixpoint_cases.specs.Same.{AreSameSplits, SplitsAlike};

use base_trait::Use;
use fixpoint_theory::Transferred;
use std::alloc::{AllocError as NoMemory, Global};
use std::sync::ledger::Ledger;
use support_step_counter::Steps;

/// Elements over a code image, with an entry and a transfer, as an `Analyser` has them, and a way to split them into pieces that cover them.
///
/// It repeats the calls of `Analyser`, since the type of a ghost member that is data can name no ghost member of a supertrait.
///
/// `analysis` has the value of each call as a function, over plain elements, `split` says into which pieces an element is split, and `merge` what
/// the uses of cases become. `laws`, `sound`, `splits`, `alike` and `merges` are what every user may rest on where it is ready. `ByCases` makes
/// an analyser of it, whose transfers go by cases.
pub trait SplitAnalyser {
    /// What stands at an address.
    type Element: Drop;

    /// The words of a counter that may be too many addresses.
    type Shown: Drop;

    /// What elements are as plain data.
    ghost Plain: { Type 0 };

    ghost view: { Self.Element → Plain };

    /// The states that elements describe.
    ghost State: { Type 0 };

    /// What has to hold before it is used.
    ghost IsReady: { Self → Type 0 };

    /// What the calls mean.
    ghost analysis: { Self → Analysis Plain Self.Shown State };

    /// The machine that is analysed.
    ghost machine: { Self → Machine State };

    /// Into which pieces an element is split at an address, if it is.
    ghost split: { Self → Split Plain };

    /// What the uses of all cases become.
    ghost merge: { Self → List Seen → List Seen };

    /// Whether an address is that of a code word.
    fn is_code(&self, at: u32) -> bool
        ensures { result ≡ is_code (analysis self.now).code at };

    /// The entry's counter.
    fn start(&self) -> u32
        ensures { result ≡ (analysis self.now).start };

    /// How many changes of an element join before later ones widen.
    fn joins(&self) -> u32
        ensures { result ≡ (analysis self.now).joins };

    /// The entry's element: it holds of each state of the entry.
    fn entry(&self, alloc: Global) -> Result<Self::Element, NoMemory>
        requires ready { IsReady self.now }
        ensures value { IfOk result (λ r. (analysis self.now).elements.same (view r) (analysis self.now).entry) }
        ensures fits { IfOk result (λ r. (analysis self.now).elements.fits (view r)) };

    /// An element that describes what either side describes.
    fn join(
        &self,
        alloc: Global,
        x: &Self::Element,
        y: &Self::Element,
    ) -> Result<Self::Element, NoMemory>
        requires ready { IsReady self.now }
        requires left { (analysis self.now).elements.fits (view x.now) }
        requires right { (analysis self.now).elements.fits (view y.now) }
        ensures value { IfOk result (λ r. (analysis self.now).elements.same (view r) ((analysis self.now).elements.join (view x.now) (view y.now))) }
        ensures fits { IfOk result (λ r. (analysis self.now).elements.fits (view r)) };

    /// An element that describes what either side describes, such that no chain of widenings grows for ever.
    fn widen(
        &self,
        alloc: Global,
        old: &Self::Element,
        new: &Self::Element,
    ) -> Result<Self::Element, NoMemory>
        requires ready { IsReady self.now }
        requires left { (analysis self.now).elements.fits (view old.now) }
        requires right { (analysis self.now).elements.fits (view new.now) }
        ensures value { IfOk result (λ r. (analysis self.now).elements.same (view r) ((analysis self.now).elements.widen (view old.now) (view new.now))) }
        ensures fits { IfOk result (λ r. (analysis self.now).elements.fits (view r)) };

    /// Whether the old element describes all that the new one does, as far as this test tells.
    fn absorbs(&self, old: &Self::Element, new: &Self::Element) -> bool
        requires ready { IsReady self.now }
        requires left { (analysis self.now).elements.fits (view old.now) }
        requires right { (analysis self.now).elements.fits (view new.now) }
        ensures { result ≡ (analysis self.now).elements.absorbs (view old.now) (view new.now) };

    /// The element once more.
    fn copy(&self, alloc: Global, x: &Self::Element) -> Result<Self::Element, NoMemory>
        requires ready { IsReady self.now }
        requires fits { (analysis self.now).elements.fits (view x.now) }
        ensures value { IfOk result (λ r. (analysis self.now).elements.same (view r) (view x.now)) }
        ensures fits { IfOk result (λ r. (analysis self.now).elements.fits (view r)) };

    /// What the instruction at an address makes of an element that is not split.
    fn transfer<L: Ledger>(
        &self,
        alloc: Global,
        at: u32,
        x: &Self::Element,
        steps: &mut Steps<L>,
    ) -> Result<Transferred<Self::Element, Self::Shown>, NoMemory>
        requires ready { IsReady self.now }
        requires code { IsTrue (is_code (analysis self.now).code at) }
        requires fits { (analysis self.now).elements.fits (view x.now) }
        ensures value { IfOk result (λ r. SameOutcome (analysis self.now).elements (outcome view r) ((analysis self.now).transfer at (view x.now))) }
        ensures fits { IfOk result (λ r. IfPost (analysis self.now).elements.fits (outcome view r)) };

    /// The pieces of an element at an address, or none where it is not split: each state of the element is one of a piece.
    fn split(
        &self,
        alloc: Global,
        at: u32,
        x: &Self::Element,
    ) -> Result<Option<Vec<Self::Element>>, NoMemory>
        requires ready { IsReady self.now }
        requires code { IsTrue (is_code (analysis self.now).code at) }
        requires fits { (analysis self.now).elements.fits (view x.now) }
        ensures value { IfOk result (λ r. AreSameSplits (analysis self.now).elements (option_map (λ v. map view v.items) r) (split self.now at (view x.now))) }
        ensures fits { IfOk result (λ r. IfSome r (λ v. Each (analysis self.now).elements.fits (map view v.items))) };

    /// The uses of all cases, merged.
    fn merged(&self, alloc: Global, uses: Vec<Use>) -> Result<Vec<Use>, NoMemory>
        requires ready { IsReady self.now }
        ensures { IfOk result (λ r. map seen r.items ≡ merge self.now (map seen uses.items)) };

    /// What the analysis rests on.
    ghost laws: { (it : Self) → IsReady it → AnalysisLaws (analysis it) };

    /// The analysis is sound for its machine.
    ghost sound: { (it : Self) → IsReady it → IsSound (analysis it) (machine it) };

    /// Splitting loses no state.
    ghost splits: { (it : Self) → IsReady it → IsSplit (analysis it).elements (split it) };

    /// Elements that are the same are split alike.
    ghost alike: { (it : Self) → IsReady it → SplitsAlike (analysis it).elements (split it) };

    /// Merged uses say what the uses do.
    ghost merges: { (it : Self) → IsReady it → MergeLaws (merge it) };
}
