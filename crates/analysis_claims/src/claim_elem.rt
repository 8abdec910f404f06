//! The trait of domains whose elements tell of claims.

ghost use Rattle.std.specs.Prelude.{◌≡◌, ◌+◌, IfOk, IsTrue, length};
ghost use Rattle.spec_ir.specs.Specification as plain;
ghost use Rattle.spec_ir.specs.Views.{specification};
ghost use Rattle.domain_laws.specs.States.{state_type};
ghost use Rattle.analysis_query_laws.specs.Answers.{Telling, column_of};
ghost use Rattle.analysis_query_laws.specs.Laws.{IsOfCell, TellTruly};
ghost use Rattle.semantics_values.specs.declared.entry.GivenNumber.TheVariants.{One, Range};

use domain_trait::Domain;
use semantics_values::KeyAt;
use spec_ir::Spec;
use std::alloc::{AllocError as NoMemory, Global};
use support_modular_rows::Form;

/// A domain whose elements tell of the numbers of single cells, of sums of multiples of cells, or of both.
pub trait ClaimElement: Domain {
    /// What elements tell.
    ghost telling: { Self → Telling Self.Element };

    /// Whether they tell of single cells: that their numbers are in a range, or are not a certain one.
    fn takes_ranges(&self) -> bool
        ensures { result ≡ (telling self.now).takes_ranges };

    /// Whether they tell of sums.
    fn takes_sums(&self) -> bool
        ensures { result ≡ (telling self.now).takes_sums };

    /// How many cells are tracked: of these alone are sums told.
    fn cells(&self) -> u32
        ensures { result ≡ length (telling self.now).tracked };

    /// The place of a tracked cell, from 0.
    fn tracked(&self, field: u32, key: &KeyAt) -> Option<u32>
        ensures { result ≡ column_of (telling self.now).tracked field key.now };

    /// Whether an element has the number of a cell in a range, ends included. If so it is in the range in each state of which the element holds.
    fn in_range(
        &self,
        alloc: Global,
        spec: &Spec,
        x: &Self::Element,
        field: u32,
        key: &KeyAt,
        lo: u64,
        hi: u64,
    ) -> Result<bool, NoMemory>
        requires made { IsTrue (Self.is_for self.now (specification spec.now)) }
        requires fits { (Self.elements self.now).fits (Self.view x.now) }
        requires range { IsOfCell (state_type (specification spec.now)).fields field key.now (Range lo hi) }
        ensures { IfOk result (λ r. r ≡ (telling self.now).in_range x.now field key.now lo hi) };

    /// Whether an element has no state in which a cell has a number, as far as it can tell. If so no state of which the element holds has it.
    fn excludes(
        &self,
        alloc: Global,
        spec: &Spec,
        x: &Self::Element,
        field: u32,
        key: &KeyAt,
        value: u64,
    ) -> Result<bool, NoMemory>
        requires made { IsTrue (Self.is_for self.now (specification spec.now)) }
        requires fits { (Self.elements self.now).fits (Self.view x.now) }
        requires number { IsOfCell (state_type (specification spec.now)).fields field key.now (One value) }
        ensures { IfOk result (λ r. r ≡ (telling self.now).excludes x.now field key.now value) };

    /// Whether an element has a form 0. If so it is 0, modulo 2^32, in each state of which the element holds.
    fn meets(&self, x: &Self::Element, form: &Form) -> bool
        requires fits { (Self.elements self.now).fits (Self.view x.now) }
        requires form { length form.now ≡ length (telling self.now).tracked + 1 }
        ensures { result ≡ (telling self.now).meets x.now form.now };

    /// What is told is true.
    ghost truly: { (it : Self) (spec : plain.Spec) → IsTrue (Self.is_for it spec) → TellTruly (state_type spec).fields (λ x. (Self.elements it).fits (Self.view x)) (λ x. (Self.elements it).holds (Self.view x)) (telling it) };
}
