//! The domain of cells.

use crate::entry::entry_values;
use crate::fields::{fields_of, state_number};
use crate::states::{close_state, open_state};
use crate::values::{copies, join_values, rank_of_values, values_absorb, widen_values};
use abstract_value::AbstractValue;
use base_cuts::CutBase;
use base_trait::Base;
use domain_cuts::cell_piece;
use domain_laws::{CellRange, Field};
use domain_trait::Domain;
use semantics_values::Entry;
use spec_ir::Spec;
use std::alloc::{AllocError as NoMemory, Global};

/// The domain whose element is the list of the abstract values of the fields of a state but the counter, in their order.
#[derive(Drop)]
pub struct StateDomain<B: Base> {
    /// What its words share.
    ctx: B::Ctx,
    /// The number of the datatype of states.
    number: u32,
    /// The fields behind the counter.
    fields: Vec<Field>,
}

impl<B: Base> StateDomain<B> {
    ghost use Rattle.std.specs.Prelude.{◌≡◌, IfOk, IsTrue, false, true};
    ghost use Rattle.spec_ir.specs.Views.{specification};
    ghost use Rattle.domain_laws.specs.States.{has_states};
    ghost use Rattle.domain_laws.specs.Calls.{is_for};
    ghost use Rattle.domain_cells.specs.Views.{context_of, states_of};

    /// The domain for the states of a specification: a datatype of one constructor, whose first field is the counter of 32 bits,
    /// and whose others are words and maps. `ctx` is what its words share.
    pub fn new(alloc: Global, spec: &Spec, ctx: B::Ctx) -> Result<StateDomain<B>, NoMemory>
        requires joins { IsTrue B.algebra.joins }
        requires unseen { B.algebra.words.looks ≡ false }
        requires states { has_states (specification spec.now) ≡ true }
        ensures made { IfOk result (λ r. IsTrue (is_for B.algebra (states_of r) (specification spec.now))) }
        ensures context { IfOk result (λ r. context_of r ≡ ctx) }
    {
        Ok(StateDomain {
            ctx,
            number: state_number(spec),
            fields: fields_of(alloc, spec)?,
        })
    }

    /// The fields behind the counter.
    pub fn fields(&self) -> &[Field]
        ensures { result.now ≡ (states_of self.now).fields }
    {
        &self.fields
    }

    /// What its words share.
    pub fn shared(&self) -> &B::Ctx
        ensures { result.now ≡ context_of self.now }
    {
        &self.ctx
    }
}

impl<B: CutBase> Domain for StateDomain<B> {
    ghost use Rattle.std.specs.Prelude.{map};
    ghost use Rattle.abstract_value_laws.specs.Abs.{Parts, parts};
    ghost use Rattle.domain_laws.specs.Calls.{cell_calls, is_for};
    ghost use Rattle.domain_laws.specs.Cells.{cells};
    ghost use Rattle.abstract_value.specs.View.{abs};
    ghost use Rattle.domain_cells.specs.Views.{context_of, states_of};
    ghost use Rattle.domain_cell_pieces.specs.Pieces.{cell_piece};
    ghost use Rattle.domain_cells.specs.Instance.{cells_are_cut, cells_keep_the_laws};

    type B = B;

    type Element = Vec<AbstractValue<B>>;

    ghost Plain = { Parts B.Word B.Note };

    ghost view = { λ x. parts (map abs x.items) };

    ghost elements = { λ it. cells B.algebra (context_of it) B.CAP (states_of it).fields };

    ghost meaning = { λ it. cell_calls B.algebra (context_of it) B.CAP (states_of it) };

    ghost pieces = { λ it. cell_piece B.algebra B.cuts (context_of it) B.CAP (states_of it).fields };

    ghost is_for = { λ it spec. is_for B.algebra (states_of it) spec };

    ghost cut_laws = { λ it spec made. cells_are_cut B.algebra B.laws B.cuts B.cut_laws (context_of it) B.CAP (states_of it) spec made };

    ghost laws = { λ it spec made. cells_keep_the_laws B.algebra B.laws (context_of it) B.CAP (states_of it) spec made };

    fn ctx(&self, alloc: Global) -> Result<B::Ctx, NoMemory> {
        B::copy_ctx(alloc, &self.ctx)
    }

    fn entry(
        &self,
        alloc: Global,
        _spec: &Spec,
        e: &Entry,
    ) -> Result<Vec<AbstractValue<B>>, NoMemory> {
        entry_values(alloc, &self.ctx, &self.fields, &e.lines)
    }

    fn open(
        &self,
        alloc: Global,
        _spec: &Spec,
        x: &Vec<AbstractValue<B>>,
        pc: u32,
    ) -> Result<AbstractValue<B>, NoMemory> {
        open_state(alloc, &self.ctx, self.number, pc, x)
    }

    fn close(
        &self,
        alloc: Global,
        _spec: &Spec,
        _before: &Vec<AbstractValue<B>>,
        value: &AbstractValue<B>,
    ) -> Result<Vec<AbstractValue<B>>, NoMemory> {
        close_state(alloc, &self.ctx, value)
    }

    fn join(
        &self,
        alloc: Global,
        x: &Vec<AbstractValue<B>>,
        y: &Vec<AbstractValue<B>>,
    ) -> Result<Vec<AbstractValue<B>>, NoMemory> {
        join_values(alloc, &self.ctx, x, y)
    }

    fn widen(
        &self,
        alloc: Global,
        old: &Vec<AbstractValue<B>>,
        new: &Vec<AbstractValue<B>>,
    ) -> Result<Vec<AbstractValue<B>>, NoMemory> {
        widen_values(alloc, &self.ctx, old, new)
    }

    fn absorbs(&self, old: &Vec<AbstractValue<B>>, new: &Vec<AbstractValue<B>>) -> bool {
        values_absorb(&self.ctx, old, new)
    }

    fn rank(&self, x: &Vec<AbstractValue<B>>) -> u64 {
        rank_of_values(&self.ctx, x)
    }

    fn copy(
        &self,
        alloc: Global,
        x: &Vec<AbstractValue<B>>,
    ) -> Result<Vec<AbstractValue<B>>, NoMemory> {
        copies(alloc, &self.ctx, x)
    }

    fn piece(
        &self,
        alloc: Global,
        _spec: &Spec,
        cut: CellRange,
        x: &Vec<AbstractValue<B>>,
    ) -> Result<Option<Vec<AbstractValue<B>>>, NoMemory> {
        cell_piece(alloc, &self.ctx, &self.fields, cut, x)
    }
}
