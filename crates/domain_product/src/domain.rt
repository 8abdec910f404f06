//! The domain of pairs.

use crate::sides::{both_there, closed_first, closed_second, pair_results};
use abstract_value::AbstractValue;
use base_product::{Pair, Paired};
use base_trait::Base;
use domain_laws::CellRange;
use domain_trait::Domain;
use semantics_values::Entry;
use spec_ir::Spec;
use std::alloc::{AllocError as NoMemory, Global};

/// Two domains side by side. An element holds of a state where both parts hold of it.
#[derive(Drop)]
pub struct PairDomain<A: Domain, B: Domain> {
    /// The domain of first parts.
    pub first: A,
    /// The domain of second parts.
    pub second: B,
}

impl<A: Domain, B: Domain> Domain for PairDomain<A, B> {
    ghost use Rattle.std.specs.Prelude.{◌&&◌, max};
    ghost use Rattle.fixpoint_theory.specs.Pairs.{paired as paired_elements};
    ghost use Rattle.fixpoint_cases.specs.Pieces.{pair_piece};
    ghost use Rattle.domain_product_laws.specs.Domain.{may_pair, pair_meaning};
    ghost use Rattle.domain_product.specs.Instance.{pairs_are_cut, pairs_are_domains};

    type B = Paired<A::B, B::B>;

    type Element = (A::Element, B::Element);

    ghost Plain = { A.Plain × B.Plain };

    ghost view = { λ x. (A.view x.0, B.view x.1) };

    ghost elements = { λ it. paired_elements (A.elements it.first) (B.elements it.second) };

    ghost meaning = { λ it. pair_meaning A.B.algebra B.B.algebra (max A.B.CAP B.B.CAP) (A.meaning it.first) (B.meaning it.second) };

    ghost pieces = { λ it. pair_piece (A.pieces it.first) (B.pieces it.second) };

    ghost is_for = { λ it spec. A.is_for it.first spec && (B.is_for it.second spec && may_pair A.B.algebra B.B.algebra) };

    ghost cut_laws = { λ it spec made. pairs_are_cut A.B.algebra B.B.algebra (A.elements it.first) (B.elements it.second) (A.pieces it.first) (B.pieces it.second)
        (A.is_for it.first spec) (B.is_for it.second spec) made (A.cut_laws it.first spec) (B.cut_laws it.second spec) };

    ghost laws = { λ it spec made. pairs_are_domains A.B.algebra B.B.algebra A.B.laws B.B.laws A.B.CAP B.B.CAP A.B.capacity B.B.capacity
        (A.meaning it.first) (B.meaning it.second) (A.elements it.first) (B.elements it.second) spec (A.is_for it.first spec) (B.is_for it.second spec) made (A.laws it.first spec) (B.laws it.second spec) };

    fn ctx(
        &self,
        alloc: Global,
    ) -> Result<Pair<<A::B as Base>::Ctx, <B::B as Base>::Ctx>, NoMemory> {
        Ok(Pair(self.first.ctx(alloc)?, self.second.ctx(alloc)?))
    }

    fn entry(
        &self,
        alloc: Global,
        spec: &Spec,
        e: &Entry,
    ) -> Result<(A::Element, B::Element), NoMemory> {
        Ok((
            self.first.entry(alloc, spec, e)?,
            self.second.entry(alloc, spec, e)?,
        ))
    }

    /// The state values of both parts, side by side.
    fn open(
        &self,
        alloc: Global,
        spec: &Spec,
        x: &(A::Element, B::Element),
        pc: u32,
    ) -> Result<AbstractValue<Paired<A::B, B::B>>, NoMemory> {
        let left = self.first.open(alloc, spec, &x.0, pc)?;
        let right = self.second.open(alloc, spec, &x.1, pc);
        pair_results(alloc, self.ctx(alloc), left, right)
    }

    /// Each part closed by that part of the state value.
    fn close(
        &self,
        alloc: Global,
        spec: &Spec,
        before: &(A::Element, B::Element),
        value: &AbstractValue<Paired<A::B, B::B>>,
    ) -> Result<(A::Element, B::Element), NoMemory> {
        Ok((
            closed_first(&self.first, alloc, spec, &before.0, value)?,
            closed_second(&self.second, alloc, spec, &before.1, value)?,
        ))
    }

    fn join(
        &self,
        alloc: Global,
        x: &(A::Element, B::Element),
        y: &(A::Element, B::Element),
    ) -> Result<(A::Element, B::Element), NoMemory> {
        Ok((
            self.first.join(alloc, &x.0, &y.0)?,
            self.second.join(alloc, &x.1, &y.1)?,
        ))
    }

    fn widen(
        &self,
        alloc: Global,
        old: &(A::Element, B::Element),
        new: &(A::Element, B::Element),
    ) -> Result<(A::Element, B::Element), NoMemory> {
        Ok((
            self.first.widen(alloc, &old.0, &new.0)?,
            self.second.widen(alloc, &old.1, &new.1)?,
        ))
    }

    /// Whether both parts absorb.
    fn absorbs(&self, old: &(A::Element, B::Element), new: &(A::Element, B::Element)) -> bool {
        self.first.absorbs(&old.0, &new.0) && self.second.absorbs(&old.1, &new.1)
    }

    /// The sum of both ranks.
    fn rank(&self, x: &(A::Element, B::Element)) -> u64 {
        self.first.rank(&x.0).saturating_add(self.second.rank(&x.1))
    }

    fn copy(
        &self,
        alloc: Global,
        x: &(A::Element, B::Element),
    ) -> Result<(A::Element, B::Element), NoMemory> {
        Ok((
            self.first.copy(alloc, &x.0)?,
            self.second.copy(alloc, &x.1)?,
        ))
    }

    /// What is left of both parts, where something is of each.
    fn piece(
        &self,
        alloc: Global,
        spec: &Spec,
        cut: CellRange,
        x: &(A::Element, B::Element),
    ) -> Result<Option<(A::Element, B::Element)>, NoMemory> {
        let first = self.first.piece(alloc, spec, cut, &x.0)?;
        let second = self.second.piece(alloc, spec, cut, &x.1)?;
        Ok(both_there(first, second))
    }
}
