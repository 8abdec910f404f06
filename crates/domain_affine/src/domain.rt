//! The domain of affine relations.

use crate::closed::closed_words;
use crate::entry::entry_words;
use crate::opened::{open_state, opened_words};
use crate::tracked::{cell_count, tracked_cells};
use abstract_value::AbstractValue;
use base_trait::Context;
use domain_affine_base::{Affine, Tracked};
use domain_affine_elements as elements;
use domain_cells::{fields_of, state_number};
use domain_laws::{CellRange, Field};
use domain_trait::Domain;
use semantics_values::{Entry, KeyAt};
use spec_ir::Spec;
use std::alloc::{AllocError as NoMemory, Global};
use std::marker::Model;
use support_modular_rows::Rows;

/// The domain whose element is a submodule of the vectors of 1 and the numbers of the tracked cells. Contracts see it as the
/// type of its states.
#[derive(Drop)]
pub struct AffineDomain {
    /// The number of the datatype of states.
    number: u32,
    /// The fields behind the counter.
    fields: Vec<Field>,
    /// Their tracked cells.
    tracked: Tracked,
}

impl Model for AffineDomain {
    ghost use Rattle.std.specs.Prelude.{◌≡◌};
    ghost use Rattle.domain_laws.specs.States.{StateType};
    ghost use Rattle.domain_affine_laws.specs.Tracked.{cells_in};

    ghost Value = { StateType };

    ghost view = { λ d. record { number = d.number; fields = d.fields.items } };

    ghost invariant = { λ d. d.tracked ≡ cells_in d.fields.items };
}

impl AffineDomain {
    ghost use Rattle.std.specs.Prelude.{◌≡◌, ◌<◌, ◌^◌, IfOk, IsTrue, length, true};
    ghost use Rattle.spec_ir.specs.Views.{specification};
    ghost use Rattle.domain_laws.specs.States.{has_states, state_type};
    ghost use Rattle.domain_affine_laws.specs.Calls.{is_for};
    ghost use Rattle.domain_affine_laws.specs.Tracked.{tracked_cells};

    /// The domain for the states of a specification: a datatype of one constructor, whose first field is the counter of 32 bits,
    /// and whose others are words and maps.
    pub fn new(alloc: Global, spec: &Spec) -> Result<AffineDomain, NoMemory>
        requires states { has_states (specification spec.now) ≡ true }
        requires few { length (state_type (specification spec.now)).fields < 2 ^ 32 }
        ensures made { IfOk result (λ r. IsTrue (is_for r (specification spec.now))) }
        ensures value { IfOk result (λ r. r ≡ state_type (specification spec.now)) }
    {
        let fields = fields_of(alloc, spec)?;
        let tracked = tracked_cells(alloc, &fields)?;
        Ok(AffineDomain {
            number: state_number(spec),
            fields,
            tracked,
        })
    }

    /// The tracked cells, in their order.
    pub fn tracked_cells(&self) -> &[(u32, KeyAt)]
        ensures { result.now ≡ tracked_cells self.now }
    {
        &self.tracked.cells
    }
}

impl Domain for AffineDomain {
    ghost use Rattle.support_modular_rows.specs.Submodule.{Submodule};
    ghost use Rattle.domain_affine_laws.specs.Calls.{affine_calls, affine_elements, is_for};
    ghost use Rattle.fixpoint_cases.specs.Pieces.{whole_piece};
    ghost use Rattle.domain_affine.specs.Instance.{has_the_laws, relations_stay};

    type B = Affine;

    type Element = Rows;

    ghost Plain = { Submodule };

    ghost view = { λ x. x };

    ghost elements = { λ it. affine_elements it };

    ghost meaning = { λ it. affine_calls it };

    ghost pieces = { λ it. whole_piece };

    ghost is_for = { λ it spec. is_for it spec };

    ghost cut_laws = { λ it spec made. relations_stay it };

    ghost laws = { λ it spec made. has_the_laws it spec made };

    fn ctx(&self, alloc: Global) -> Result<Tracked, NoMemory> {
        Tracked::copy(alloc, &self.tracked)
    }

    fn entry(&self, alloc: Global, _spec: &Spec, e: &Entry) -> Result<Rows, NoMemory> {
        let words = entry_words(alloc, &self.tracked, &self.fields, &e.lines)?;
        elements::entry_cells(alloc, cell_count(&self.tracked), &words)
    }

    fn open(
        &self,
        alloc: Global,
        _spec: &Spec,
        x: &Rows,
        pc: u32,
    ) -> Result<AbstractValue<Affine>, NoMemory> {
        let words = opened_words(alloc, cell_count(&self.tracked), x)?;
        open_state(alloc, &self.tracked, self.number, &self.fields, pc, &words)
    }

    fn close(
        &self,
        alloc: Global,
        _spec: &Spec,
        before: &Rows,
        value: &AbstractValue<Affine>,
    ) -> Result<Rows, NoMemory> {
        let words = closed_words(alloc, &self.tracked, value)?;
        elements::close_cells(alloc, cell_count(&self.tracked), &words, before)
    }

    fn join(&self, alloc: Global, x: &Rows, y: &Rows) -> Result<Rows, NoMemory> {
        elements::join(alloc, cell_count(&self.tracked), x, y)
    }

    /// The join.
    fn widen(&self, alloc: Global, old: &Rows, new: &Rows) -> Result<Rows, NoMemory> {
        elements::join(alloc, cell_count(&self.tracked), old, new)
    }

    fn absorbs(&self, old: &Rows, new: &Rows) -> bool {
        elements::absorbs(old, new)
    }

    fn rank(&self, x: &Rows) -> u64 {
        elements::rank(x)
    }

    fn copy(&self, alloc: Global, x: &Rows) -> Result<Rows, NoMemory> {
        elements::copy(alloc, cell_count(&self.tracked), x)
    }

    /// The element: relations stay as they are.
    fn piece(
        &self,
        alloc: Global,
        _spec: &Spec,
        _cut: CellRange,
        x: &Rows,
    ) -> Result<Option<Rows>, NoMemory> {
        Ok(Some(elements::copy(alloc, cell_count(&self.tracked), x)?))
    }
}
