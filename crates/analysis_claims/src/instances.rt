//! What the domains tell.

ghost use Rattle.std.specs.Prelude.{◌≡◌, ◌&&◌, IfOk, IsTrue};
ghost use Rattle.spec_ir.specs.Views.{specification};
ghost use Rattle.domain_laws.specs.States.{state_type};
ghost use Rattle.semantics_values.specs.declared.entry.GivenNumber.TheVariants.{One, Range};
ghost use Rattle.analysis_query_laws.specs.Laws.{IsOfCell};

use crate::cells::{cell_differs, cell_within};
use crate::claim_elem::ClaimElement;
use crate::pair_cells::{either_differs, either_within};
use crate::sums::{column_of, meets_all};
use abstract_value::AbstractValue;
use base_cuts::CutBase;
use domain_affine::AffineDomain;
use domain_cells::StateDomain;
use domain_product::PairDomain;
use domain_product_states::{PairedStates, PairedValues};
use domain_trait::Domain;
use semantics_values::KeyAt;
use spec_ir::Spec;
use std::alloc::{AllocError as NoMemory, Global};
use support_modular_rows::{Form, Rows};

/// Cells tell of single cells.
impl<B: CutBase> ClaimElement for StateDomain<B> {
    ghost use Rattle.domain_cells.specs.Views.{context_of};
    ghost use Rattle.analysis_query_laws.specs.Cells.{cells_tell};
    ghost use Rattle.analysis_claims.specs.Seen.{plain_values, seen_by};
    ghost use Rattle.analysis_claims.specs.Instance.{cells_truly};

    ghost telling = { λ it. seen_by plain_values (cells_tell B.algebra (context_of it)) };

    ghost truly = { λ it spec made. cells_truly B.algebra B.laws B.CAP it spec made };

    fn takes_ranges(&self) -> bool {
        true
    }

    fn takes_sums(&self) -> bool {
        false
    }

    fn cells(&self) -> u32 {
        0
    }

    fn tracked(&self, _field: u32, _key: &KeyAt) -> Option<u32> {
        None
    }

    fn in_range(
        &self,
        alloc: Global,
        _spec: &Spec,
        x: &Vec<AbstractValue<B>>,
        field: u32,
        key: &KeyAt,
        lo: u64,
        hi: u64,
    ) -> Result<bool, NoMemory> {
        let ctx = self.ctx(alloc)?;
        cell_within::<B>(alloc, &ctx, x, field, *key, lo, hi)
    }

    fn excludes(
        &self,
        alloc: Global,
        _spec: &Spec,
        x: &Vec<AbstractValue<B>>,
        field: u32,
        key: &KeyAt,
        value: u64,
    ) -> Result<bool, NoMemory> {
        let ctx = self.ctx(alloc)?;
        cell_differs::<B>(alloc, &ctx, x, field, *key, value)
    }

    fn meets(&self, _x: &Vec<AbstractValue<B>>, _form: &Form) -> bool {
        false
    }
}

/// Affine relations tell of sums of tracked cells.
impl ClaimElement for AffineDomain {
    ghost use Rattle.analysis_query_laws.specs.Affine.{affine_tell};
    ghost use Rattle.analysis_claims.specs.Instance.{relations_truly};

    ghost telling = { λ it. affine_tell it };

    ghost truly = { λ it spec made. relations_truly it spec made };

    fn takes_ranges(&self) -> bool {
        false
    }

    fn takes_sums(&self) -> bool {
        true
    }

    fn cells(&self) -> u32 {
        self.tracked_cells().len() as u32
    }

    fn tracked(&self, field: u32, key: &KeyAt) -> Option<u32> {
        column_of(self.tracked_cells(), field, *key)
    }

    fn in_range(
        &self,
        _alloc: Global,
        _spec: &Spec,
        _x: &Rows,
        _field: u32,
        _key: &KeyAt,
        _lo: u64,
        _hi: u64,
    ) -> Result<bool, NoMemory> {
        Ok(false)
    }

    fn excludes(
        &self,
        _alloc: Global,
        _spec: &Spec,
        _x: &Rows,
        _field: u32,
        _key: &KeyAt,
        _value: u64,
    ) -> Result<bool, NoMemory> {
        Ok(false)
    }

    fn meets(&self, x: &Rows, form: &Form) -> bool {
        meets_all(x, form)
    }
}

/// Pairs tell of what either part does; of sums the first part that tells of them.
impl<A: ClaimElement, B: ClaimElement> ClaimElement for PairDomain<A, B> {
    ghost use Rattle.analysis_query_laws.specs.Pairs.{pairs_tell};
    ghost use Rattle.analysis_claims.specs.Instance.{pairs_truly};

    ghost telling = { λ it. pairs_tell (A.telling it.first) (B.telling it.second) };

    ghost truly = { λ it spec made. pairs_truly A.view B.view (A.elements it.first) (B.elements it.second) (A.telling it.first) (B.telling it.second) spec (A.is_for it.first spec) (B.is_for it.second spec) _ made (A.truly it.first spec) (B.truly it.second spec) };

    fn takes_ranges(&self) -> bool {
        self.first.takes_ranges() || self.second.takes_ranges()
    }

    fn takes_sums(&self) -> bool {
        self.first.takes_sums() || self.second.takes_sums()
    }

    fn cells(&self) -> u32 {
        if self.first.takes_sums() {
            self.first.cells()
        } else {
            self.second.cells()
        }
    }

    fn tracked(&self, field: u32, key: &KeyAt) -> Option<u32> {
        if self.first.takes_sums() {
            self.first.tracked(field, key)
        } else {
            self.second.tracked(field, key)
        }
    }

    fn in_range(
        &self,
        alloc: Global,
        spec: &Spec,
        x: &(A::Element, B::Element),
        field: u32,
        key: &KeyAt,
        lo: u64,
        hi: u64,
    ) -> Result<bool, NoMemory> {
        if range_told(&self.first, alloc, spec, &x.0, field, key, lo, hi)? {
            return Ok(true);
        }
        range_told(&self.second, alloc, spec, &x.1, field, key, lo, hi)
    }

    fn excludes(
        &self,
        alloc: Global,
        spec: &Spec,
        x: &(A::Element, B::Element),
        field: u32,
        key: &KeyAt,
        value: u64,
    ) -> Result<bool, NoMemory> {
        if other_told(&self.first, alloc, spec, &x.0, field, key, value)? {
            return Ok(true);
        }
        other_told(&self.second, alloc, spec, &x.1, field, key, value)
    }

    fn meets(&self, x: &(A::Element, B::Element), form: &Form) -> bool {
        if self.first.takes_sums() {
            self.first.meets(&x.0, form)
        } else {
            self.second.meets(&x.1, form)
        }
    }
}

/// Pairs of cells tell of single cells what either part does.
impl<A: CutBase, B: CutBase> ClaimElement for PairedStates<A, B> {
    ghost use Rattle.domain_cells.specs.Views.{context_of, states_of};
    ghost use Rattle.analysis_query_laws.specs.Cells.{cells_tell};
    ghost use Rattle.analysis_query_laws.specs.Pairs.{pairs_tell};
    ghost use Rattle.domain_product_states.specs.Views.{seen};
    ghost use Rattle.analysis_claims.specs.Instance.{paired_truly};
    ghost use Rattle.analysis_claims.specs.Seen.{seen_by};

    ghost telling = { λ it. seen_by seen (pairs_tell (cells_tell A.algebra (context_of it.states).0) (cells_tell B.algebra (context_of it.states).1)) };

    ghost truly = { λ it spec made. paired_truly A.algebra B.algebra A.laws B.laws A.CAP B.CAP (context_of it.states) (states_of it.states) spec made seen };

    fn takes_ranges(&self) -> bool {
        true
    }

    fn takes_sums(&self) -> bool {
        false
    }

    fn cells(&self) -> u32 {
        0
    }

    fn tracked(&self, _field: u32, _key: &KeyAt) -> Option<u32> {
        None
    }

    fn in_range(
        &self,
        alloc: Global,
        _spec: &Spec,
        x: &PairedValues<A, B>,
        field: u32,
        key: &KeyAt,
        lo: u64,
        hi: u64,
    ) -> Result<bool, NoMemory> {
        either_within::<A, B>(alloc, self.states.shared(), x, field, *key, lo, hi)
    }

    fn excludes(
        &self,
        alloc: Global,
        _spec: &Spec,
        x: &PairedValues<A, B>,
        field: u32,
        key: &KeyAt,
        value: u64,
    ) -> Result<bool, NoMemory> {
        either_differs::<A, B>(alloc, self.states.shared(), x, field, *key, value)
    }

    fn meets(&self, _x: &PairedValues<A, B>, _form: &Form) -> bool {
        false
    }
}

/// Whether an element tells that a cell is in a range; not where it tells of no single cells.
pub(crate) fn range_told<D: ClaimElement>(
    domain: &D,
    alloc: Global,
    spec: &Spec,
    x: &D::Element,
    field: u32,
    key: &KeyAt,
    lo: u64,
    hi: u64,
) -> Result<bool, NoMemory>
    requires made { IsTrue (D.is_for domain.now (specification spec.now)) }
    requires fits { (D.elements domain.now).fits (D.view x.now) }
    requires range { IsOfCell (state_type (specification spec.now)).fields field key.now (Range lo hi) }
    ensures { IfOk result (λ r. r ≡ ((D.telling domain.now).takes_ranges && (D.telling domain.now).in_range x.now field key.now lo hi)) }
{
    if domain.takes_ranges() {
        domain.in_range(alloc, spec, x, field, key, lo, hi)
    } else {
        Ok(false)
    }
}

/// Whether an element tells that a cell does not have a number; not where it tells of no single cells.
pub(crate) fn other_told<D: ClaimElement>(
    domain: &D,
    alloc: Global,
    spec: &Spec,
    x: &D::Element,
    field: u32,
    key: &KeyAt,
    value: u64,
) -> Result<bool, NoMemory>
    requires made { IsTrue (D.is_for domain.now (specification spec.now)) }
    requires fits { (D.elements domain.now).fits (D.view x.now) }
    requires number { IsOfCell (state_type (specification spec.now)).fields field key.now (One value) }
    ensures { IfOk result (λ r. r ≡ ((D.telling domain.now).takes_ranges && (D.telling domain.now).excludes x.now field key.now value)) }
{
    if domain.takes_ranges() {
        domain.excludes(alloc, spec, x, field, key, value)
    } else {
        Ok(false)
    }
}
