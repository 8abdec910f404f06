//! The domain of pairs of cells.

use crate::both::{Both, PairedValues};
use crate::opened::{opened_apart, opened_together};
use crate::parts::{copied_both, joined_both, ranked_both, widened_both};
use crate::pieces::piece_of_both;
use crate::sides::absorbed_both;
use abstract_value::AbstractValue;
use base_cuts::CutBase;
use base_product::{Pair, Paired};
use base_trait::Base;
use domain_cells::{StateDomain, close_state};
use domain_laws::CellRange;
use domain_trait::Domain;
use semantics_values::Entry;
use spec_ir::Spec;
use std::alloc::{AllocError as NoMemory, Global};

/// Two domains of cells side by side. An element holds of a state where both parts hold of it.
#[derive(Drop)]
pub struct PairedStates<A: Base, B: Base> {
    /// The domain of cells over the pair.
    pub states: StateDomain<Paired<A, B>>,
}

impl<A: CutBase, B: CutBase> Domain for PairedStates<A, B> {
    ghost use Rattle.std.specs.Prelude.{max};
    ghost use Rattle.base_product.specs.Meaning.{paired};
    ghost use Rattle.abstract_value_laws.specs.Abs.{Parts};
    ghost use Rattle.domain_laws.specs.Calls.{is_for};
    ghost use Rattle.domain_cells.specs.Views.{context_of, states_of};
    ghost use Rattle.fixpoint_cases.specs.Pieces.{pair_piece};
    ghost use Rattle.domain_cell_pieces.specs.Pieces.{cell_piece};
    ghost use Rattle.domain_product_states.specs.Instance.{pairs_of_cells_are_cut, pairs_of_cells_keep_the_laws};
    ghost use Rattle.domain_product_states.specs.Parts.{pair_elements, pair_of_cells};
    ghost use Rattle.domain_product_states.specs.Views.{seen};

    type B = Paired<A, B>;

    type Element = PairedValues<A, B>;

    ghost Plain = { Parts A.Word A.Note × Parts B.Word B.Note };

    ghost view = { λ x. seen x };

    ghost elements = { λ it. pair_elements A.algebra B.algebra (context_of it.states) A.CAP B.CAP (max A.CAP B.CAP) (states_of it.states) };

    ghost meaning = { λ it. pair_of_cells A.algebra B.algebra (context_of it.states) A.CAP B.CAP (max A.CAP B.CAP) (states_of it.states) };

    ghost pieces = { λ it. pair_piece (cell_piece A.algebra A.cuts (context_of it.states).0 A.CAP (states_of it.states).fields)
        (cell_piece B.algebra B.cuts (context_of it.states).1 B.CAP (states_of it.states).fields) };

    ghost is_for = { λ it spec. is_for (paired A.algebra B.algebra) (states_of it.states) spec };

    ghost cut_laws = { λ it spec made. pairs_of_cells_are_cut A.algebra B.algebra A.laws B.laws A.cuts B.cuts A.cut_laws B.cut_laws A.CAP B.CAP (max A.CAP B.CAP) (context_of it.states) (states_of it.states) spec made };

    ghost laws = { λ it spec made. pairs_of_cells_keep_the_laws A.algebra B.algebra A.laws B.laws A.CAP B.CAP A.capacity B.capacity (context_of it.states) (states_of it.states) spec made };

    fn ctx(&self, alloc: Global) -> Result<Pair<A::Ctx, B::Ctx>, NoMemory> {
        self.states.ctx(alloc)
    }

    fn entry(&self, alloc: Global, spec: &Spec, e: &Entry) -> Result<PairedValues<A, B>, NoMemory> {
        let values = self.states.entry(alloc, spec, e)?;
        Ok(Both::Together(values))
    }

    /// The values of both parts behind the counter, side by side.
    fn open(
        &self,
        alloc: Global,
        spec: &Spec,
        x: &PairedValues<A, B>,
        pc: u32,
    ) -> Result<AbstractValue<Paired<A, B>>, NoMemory> {
        match x {
            Both::Together(values) => opened_together(&self.states, alloc, spec, values, pc),
            Both::Apart(xs, ys) => opened_apart(&self.states, alloc, spec, xs, ys, pc),
        }
    }

    fn close(
        &self,
        alloc: Global,
        _spec: &Spec,
        _before: &PairedValues<A, B>,
        value: &AbstractValue<Paired<A, B>>,
    ) -> Result<PairedValues<A, B>, NoMemory> {
        let values = close_state(alloc, self.states.shared(), value)?;
        Ok(Both::Together(values))
    }

    fn join(
        &self,
        alloc: Global,
        x: &PairedValues<A, B>,
        y: &PairedValues<A, B>,
    ) -> Result<PairedValues<A, B>, NoMemory> {
        joined_both(alloc, self.states.shared(), x, y)
    }

    fn widen(
        &self,
        alloc: Global,
        old: &PairedValues<A, B>,
        new: &PairedValues<A, B>,
    ) -> Result<PairedValues<A, B>, NoMemory> {
        widened_both(alloc, self.states.shared(), old, new)
    }

    /// Whether both parts absorb.
    fn absorbs(&self, old: &PairedValues<A, B>, new: &PairedValues<A, B>) -> bool {
        absorbed_both(self.states.shared(), old, new)
    }

    /// The sum of both ranks.
    fn rank(&self, x: &PairedValues<A, B>) -> u64 {
        ranked_both(self.states.shared(), x)
    }

    fn copy(&self, alloc: Global, x: &PairedValues<A, B>) -> Result<PairedValues<A, B>, NoMemory> {
        copied_both(alloc, self.states.shared(), x)
    }

    /// What is left of both parts, where something is of each: they stay apart until an instruction is evaluated.
    fn piece(
        &self,
        alloc: Global,
        _spec: &Spec,
        cut: CellRange,
        x: &PairedValues<A, B>,
    ) -> Result<Option<PairedValues<A, B>>, NoMemory> {
        piece_of_both(alloc, self.states.shared(), self.states.fields(), cut, x)
    }
}
