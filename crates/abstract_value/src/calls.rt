//! The calls on values.

ghost use Rattle.std.specs.Prelude.{◌≡◌, ◌-◌, ◌^◌, ◌↔◌, min, IfOk, IsTrue};
ghost use Rattle.spec_ir.specs.Views.{specification};
ghost use Rattle.semantics_values.specs.Types.{environment_of};
ghost use Rattle.semantics_values.specs.Views.{val};
ghost use Rattle.abstract_value_laws.specs.Calls.{absorbs_of, join_of, widen_of};
ghost use Rattle.abstract_value_laws.specs.Fits.{Fits};
ghost use Rattle.abstract_value_laws.specs.OfValues as of;
ghost use Rattle.abstract_value_laws.specs.OfValues.{ValueFits};
ghost use Rattle.abstract_value_laws.specs.Ranks.{leaf_rank};
ghost use Rattle.abstract_value_laws.specs.Types as types;
ghost use Rattle.abstract_value.specs.View.{abs};
ghost use Rattle.abstract_value.specs.Ways.{merged};

use super::absorbs::absorbs;
use super::copies::copy;
use super::merge::merge;
use super::of_value::of_value;
use super::rank::rank;
use super::typed::has_type;
use super::value::AbstractValue;
use super::way::Way;
use base_trait::Base;
use semantics_values::Value;
use spec_ir::{Spec, Ty};
use std::alloc::{AllocError as NoMemory, Global};

impl<B: Base> AbstractValue<B> {
    /// A value that describes what either does, where both are of one type.
    ///
    /// Part by part: a constructor that is on one side alone comes as it is, and a map lists the keys of either.
    pub fn join(
        &self,
        alloc: Global,
        ctx: &B::Ctx,
        other: &AbstractValue<B>,
    ) -> Result<AbstractValue<B>, NoMemory>
        requires left { Fits B.algebra ctx.now B.CAP (abs self.now) }
        requires right { Fits B.algebra ctx.now B.CAP (abs other.now) }
        ensures value { IfOk result (λ r. abs r ≡ join_of B.algebra ctx.now B.CAP (abs self.now) (abs other.now)) }
        ensures fits { IfOk result (λ r. Fits B.algebra ctx.now B.CAP (abs r)) }
    {
        merge(alloc, ctx, Way::Join, self, other)
    }

    /// A value that describes what either does, where both are of one type, such that no chain of widenings grows for ever.
    ///
    /// Part by part: a constructor that is new comes as it is, and a map lists its old keys.
    pub fn widen(
        &self,
        alloc: Global,
        ctx: &B::Ctx,
        new: &AbstractValue<B>,
    ) -> Result<AbstractValue<B>, NoMemory>
        requires old { Fits B.algebra ctx.now B.CAP (abs self.now) }
        requires new { Fits B.algebra ctx.now B.CAP (abs new.now) }
        ensures value { IfOk result (λ r. abs r ≡ widen_of B.algebra ctx.now (abs self.now) (abs new.now)) }
        ensures fits { IfOk result (λ r. Fits B.algebra ctx.now B.CAP (abs r)) }
    {
        merge(alloc, ctx, Way::Widen, self, new)
    }

    /// The join with another value, or the widening by it.
    pub fn merge(
        &self,
        alloc: Global,
        ctx: &B::Ctx,
        way: Way,
        other: &AbstractValue<B>,
    ) -> Result<AbstractValue<B>, NoMemory>
        requires left { Fits B.algebra ctx.now B.CAP (abs self.now) }
        requires right { Fits B.algebra ctx.now B.CAP (abs other.now) }
        ensures { IfOk result (λ r. abs r ≡ merged B.algebra ctx.now B.CAP way (abs self.now) (abs other.now)) }
    {
        merge(alloc, ctx, way, self, other)
    }

    /// Whether it absorbs the new value, part by part: if so it describes all that the new one does. A constructor that it
    /// lacks is not absorbed, nor is a value of another type.
    pub fn absorbs(&self, ctx: &B::Ctx, new: &AbstractValue<B>) -> bool
        requires old { Fits B.algebra ctx.now B.CAP (abs self.now) }
        requires new { Fits B.algebra ctx.now B.CAP (abs new.now) }
        ensures { result ≡ absorbs_of B.algebra ctx.now (abs self.now) (abs new.now) }
    {
        absorbs(ctx, self, new)
    }

    /// The same value once more. Of a constructor value the fields are shared, so a copy takes no longer than its word or map, or
    /// the list of the constructors that are present.
    pub fn copy(&self, alloc: Global, ctx: &B::Ctx) -> Result<AbstractValue<B>, NoMemory>
        ensures { IfOk result (λ r. abs r ≡ abs self.now) }
    {
        copy(alloc, ctx, self)
    }

    /// Whether both are one value.
    pub fn same(&self, other: &AbstractValue<B>) -> bool
        ensures { IsTrue result ↔ (abs self.now ≡ abs other.now) }
    {
        *self == *other
    }

    /// Whether it has a type of the specification, whatever its words.
    pub fn has_type(&self, spec: &Spec, ty: Ty) -> bool
        ensures { result ≡ types.has_type (environment_of (specification spec.now)) (abs self.now) ty }
    {
        has_type(spec, self, ty)
    }

    /// What falls where words of a flag, a word or a map are widened, with each note counted as 0; 2^64 - 1 where it is more
    /// than that. Of a constructor value it is 0, since its rank is counted along its shape.
    pub fn rank(&self, ctx: &B::Ctx) -> u64
        requires fits { Fits B.algebra ctx.now B.CAP (abs self.now) }
        ensures { result ≡ min (leaf_rank B.algebra ctx.now (abs self.now)) (2 ^ 64 - 1) }
    {
        rank(ctx, self)
    }

    /// The value that describes a concrete one: words are constants, the constructor is present alone, and a map has the
    /// concrete cells, with notes of their stamps, as many as the base may list.
    pub fn of_value(
        alloc: Global,
        ctx: &B::Ctx,
        spec: &Spec,
        v: &Value,
    ) -> Result<AbstractValue<B>, NoMemory>
        requires value { ValueFits (environment_of (specification spec.now)) (val v.now) }
        ensures value { IfOk result (λ r. abs r ≡ of.of_value B.algebra ctx.now B.CAP (environment_of (specification spec.now)) (val v.now)) }
        ensures fits { IfOk result (λ r. Fits B.algebra ctx.now B.CAP (abs r)) }
    {
        of_value(alloc, ctx, spec, v)
    }
}
