//! The turns of a group of functions.

ghost use Rattle.spec_ir.specs.Specification.{Spec};

use super::groups::{groups_absorb, merge_groups};
use abstract_value::{AbstractValue, Way};
use base_trait::Base;
use std::alloc::{AllocError as NoMemory, Global};
use std::marker::{Brand, PhantomData};
use support_tail_fixpoint::Turn;

/// The specification whose functions are evaluated: contracts speak of it, and no code holds it.
pub trait Specified {
    ghost spec: { Spec };
}

/// For a call that picks the specification in its proof: of itself it is one that declares nothing.
impl Specified for Brand {
    ghost use Rattle.eval_group_turns.specs.Nothing.{nothing};

    ghost spec = { nothing };
}

/// The turns of an activation of a group of functions.
///
/// Arguments fit where each list is one of a function of the group, with values of its parameters' types that fit and
/// list no stamps but those of the first arguments and that of the instruction.
#[derive(Drop)]
pub struct Turning<B: Base, K: Specified> {
    /// What the words share.
    pub ctx: B::Ctx,
    /// The group.
    pub group: u32,
    /// The address of the instruction.
    pub at: u32,
    /// The arguments with which the activation began.
    pub origin: Vec<AbstractValue<B>>,
    /// The specification.
    pub of: PhantomData<K>,
}

impl<B: Base, K: Specified> Turn for Turning<B, K> {
    ghost use Rattle.abstract_value_laws.specs.Abs.{Abs};
    ghost use Rattle.abstract_value.specs.View.{abs};
    ghost use Rattle.abstract_map_laws.proofs.Fitting.{room};
    ghost use Rattle.abstract_semantics.specs.Terms.{GroupArgs};
    ghost use Rattle.eval_group_turns.specs.Kept.{keeps_fit};
    ghost use Rattle.eval_group_turns.specs.Turning.{stamps_from, turning};
    ghost use Rattle.eval_group_turns.specs.Views.{all_abs, group_args};

    type Args = Vec<Option<Vec<AbstractValue<B>>>>;

    type Out = AbstractValue<B>;

    ghost PlainArgs = { GroupArgs B.Word B.Note };

    ghost PlainOut = { Abs B.Word B.Note };

    ghost args_view = { group_args };

    ghost out_view = { abs };

    ghost meaning = { λ t. turning B.algebra t.ctx B.CAP K.spec (stamps_from B.algebra t.at (all_abs t.origin)) t.group };

    fn join_out(
        &mut self,
        alloc: Global,
        x: &AbstractValue<B>,
        y: &AbstractValue<B>,
    ) -> Result<AbstractValue<B>, NoMemory> {
        x.join(alloc, &self.ctx, y)
    }

    fn join_args(
        &mut self,
        alloc: Global,
        x: &Vec<Option<Vec<AbstractValue<B>>>>,
        y: &Vec<Option<Vec<AbstractValue<B>>>>,
    ) -> Result<Vec<Option<Vec<AbstractValue<B>>>>, NoMemory> {
        merge_groups(alloc, &self.ctx, Way::Join, x, y)
    }

    fn widen_args(
        &mut self,
        alloc: Global,
        old: &Vec<Option<Vec<AbstractValue<B>>>>,
        new: &Vec<Option<Vec<AbstractValue<B>>>>,
    ) -> Result<Vec<Option<Vec<AbstractValue<B>>>>, NoMemory> {
        merge_groups(alloc, &self.ctx, Way::Widen, old, new)
    }

    fn absorbs(
        &self,
        old: &Vec<Option<Vec<AbstractValue<B>>>>,
        new: &Vec<Option<Vec<AbstractValue<B>>>>,
    ) -> bool {
        groups_absorb(&self.ctx, old, new)
    }

    ghost keeps_fit = { λ t. keeps_fit B.algebra B.laws t.ctx B.CAP K.spec t.at (stamps_from B.algebra t.at (all_abs t.origin)) t.group (room B.algebra B.CAP B.capacity) };
}
