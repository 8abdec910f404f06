//! The trait of domains.

ghost use Rattle.std.specs.Prelude.{◌≡◌, ℕ, ◌-◌, ◌^◌, Bool, min, option_map, IfOk, IfSome, IsTrue};
ghost use Rattle.spec_ir.specs.Specification as plain;
ghost use Rattle.spec_ir.specs.Views.{specification};
ghost use Rattle.semantics_values.specs.States.{State};
ghost use Rattle.semantics_values.specs.declared.entry.KeyAt.{KeyAt};
ghost use Rattle.fixpoint_theory.specs.Elements.{Elements};
ghost use Rattle.fixpoint_cases.specs.Pieces.{Piece};
ghost use Rattle.fixpoint_cases.specs.Same.{IsSamePiece};
ghost use Rattle.domain_laws.specs.Domain.{DomainLaws, Meaning};
ghost use Rattle.domain_laws.specs.Entries.{LinesFit};
ghost use Rattle.domain_laws.specs.Pieces.{AreCut};
ghost use Rattle.domain_laws.specs.States.{state_type};
ghost use Rattle.domain_laws.specs.Values.{IsStateValue};
ghost use Rattle.abstract_value.specs.View.{abs};

use abstract_value::AbstractValue;
use base_trait::Base;
use domain_laws::CellRange;
use semantics_values::Entry;
use spec_ir::Spec;
use std::alloc::{AllocError as NoMemory, Global};

/// Elements of an analysis, each of which describes a set of states.
///
/// `elements` and `meaning` have the value of each call as a function, over plain elements; `laws` are what every user may
/// rest on. A call answers an element that is the same as its value.
pub trait Domain {
    /// The words of its state values.
    type B: Base;

    /// What stands at an address.
    type Element: Drop;

    /// What elements are as plain data.
    ghost Plain: { Type 0 };

    ghost view: { Self.Element → Plain };

    /// What an analysis needs of elements.
    ghost elements: { Self → Elements Plain State };

    /// What evaluation needs of them.
    ghost meaning: { Self → Meaning Plain Self.B.Word Self.B.Note Self.B.Ctx };

    /// What is left of elements where a cell lies between two numbers.
    ghost pieces: { Self → Piece (ℕ × KeyAt) Plain };

    /// Whether the domain is for a specification.
    ghost is_for: { Self → plain.Spec → Bool };

    /// A copy of what its words share.
    fn ctx(&self, alloc: Global) -> Result<<Self::B as Base>::Ctx, NoMemory>
        ensures value { IfOk result (λ r. r ≡ (meaning self.now).context) };

    /// The element of an entry: it holds of each state of the entry.
    fn entry(&self, alloc: Global, spec: &Spec, e: &Entry) -> Result<Self::Element, NoMemory>
        requires made { IsTrue (is_for self.now (specification spec.now)) }
        requires lines { LinesFit (state_type (specification spec.now)).fields e.now.lines.items }
        ensures value { IfOk result (λ r. (elements self.now).same (view r) ((meaning self.now).entry e.now.lines.items)) }
        ensures fits { IfOk result (λ r. (elements self.now).fits (view r)) };

    /// The state value of an element at an address. It describes each state of which the element holds.
    fn open(
        &self,
        alloc: Global,
        spec: &Spec,
        x: &Self::Element,
        pc: u32,
    ) -> Result<AbstractValue<Self::B>, NoMemory>
        requires made { IsTrue (is_for self.now (specification spec.now)) }
        requires fits { (elements self.now).fits (view x.now) }
        ensures value { IfOk result (λ r. abs r ≡ (meaning self.now).opened pc (view x.now)) };

    /// The element behind an instruction, where `before` stood before it and `value` is the state value that it gave. The
    /// element holds of the next state, where the value describes that.
    fn close(
        &self,
        alloc: Global,
        spec: &Spec,
        before: &Self::Element,
        value: &AbstractValue<Self::B>,
    ) -> Result<Self::Element, NoMemory>
        requires made { IsTrue (is_for self.now (specification spec.now)) }
        requires fits { (elements self.now).fits (view before.now) }
        requires state { IsStateValue Self.B.algebra (meaning self.now).context Self.B.CAP (state_type (specification spec.now)) (abs value.now) }
        ensures value { IfOk result (λ r. (elements self.now).same (view r) ((meaning self.now).closed (view before.now) (abs value.now))) }
        ensures fits { IfOk result (λ r. (elements self.now).fits (view r)) };

    /// An element that holds of what either side holds of.
    fn join(
        &self,
        alloc: Global,
        x: &Self::Element,
        y: &Self::Element,
    ) -> Result<Self::Element, NoMemory>
        requires left { (elements self.now).fits (view x.now) }
        requires right { (elements self.now).fits (view y.now) }
        ensures value { IfOk result (λ r. (elements self.now).same (view r) ((elements self.now).join (view x.now) (view y.now))) }
        ensures fits { IfOk result (λ r. (elements self.now).fits (view r)) };

    /// An element that holds of what either side holds of, such that no chain of widenings grows for ever.
    fn widen(
        &self,
        alloc: Global,
        old: &Self::Element,
        new: &Self::Element,
    ) -> Result<Self::Element, NoMemory>
        requires old { (elements self.now).fits (view old.now) }
        requires new { (elements self.now).fits (view new.now) }
        ensures value { IfOk result (λ r. (elements self.now).same (view r) ((elements self.now).widen (view old.now) (view new.now))) }
        ensures fits { IfOk result (λ r. (elements self.now).fits (view r)) };

    /// Whether the old element absorbs the new one: if so it holds of all that the new one holds of.
    fn absorbs(&self, old: &Self::Element, new: &Self::Element) -> bool
        requires old { (elements self.now).fits (view old.now) }
        requires new { (elements self.now).fits (view new.now) }
        ensures value { result ≡ (elements self.now).absorbs (view old.now) (view new.now) };

    /// What falls where an element is widened and changes, with each note counted as 0; 2^64 - 1 where it is more than that.
    fn rank(&self, x: &Self::Element) -> u64
        requires fits { (elements self.now).fits (view x.now) }
        ensures value { result ≡ min ((meaning self.now).rank (view x.now)) (2 ^ 64 - 1) };

    /// The same element once more.
    fn copy(&self, alloc: Global, x: &Self::Element) -> Result<Self::Element, NoMemory>
        requires fits { (elements self.now).fits (view x.now) }
        ensures value { IfOk result (λ r. (elements self.now).same (view r) (view x.now)) }
        ensures fits { IfOk result (λ r. (elements self.now).fits (view r)) };

    /// What is left of an element where a cell lies between two numbers, or none where nothing is. It holds of each state of the element in which
    /// the cell does, and maybe of others: where the cell cannot be cut it is the element once more.
    fn piece(
        &self,
        alloc: Global,
        spec: &Spec,
        cut: CellRange,
        x: &Self::Element,
    ) -> Result<Option<Self::Element>, NoMemory>
        requires made { IsTrue (is_for self.now (specification spec.now)) }
        requires fits { (elements self.now).fits (view x.now) }
        ensures value { IfOk result (λ r. IsSamePiece (elements self.now) (option_map view r) (pieces self.now (cut.place, cut.key) cut.low cut.high (view x.now))) }
        ensures fits { IfOk result (λ r. IfSome r (λ y. (elements self.now).fits (view y))) };

    /// What every user may rest on of pieces, with a specification that the domain is for.
    ghost cut_laws: { (it : Self) (spec : plain.Spec) → IsTrue (is_for it spec) → AreCut (elements it) (pieces it) };

    /// What every user may rest on, with a specification that the domain is for.
    ghost laws: { (it : Self) (spec : plain.Spec) → IsTrue (is_for it spec) → DomainLaws Self.B.algebra Self.B.CAP spec (elements it) (meaning it) };
}
