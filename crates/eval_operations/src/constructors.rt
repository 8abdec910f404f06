//! Values that a term spells.

ghost use Rattle.std.specs.Prelude.{◌≡◌, Some, None, map, option_map, slice_get, if◌then◌else◌, All, IfOk, IfSome};
ghost use Rattle.semantics.specs.Steps.{is_word};
ghost use Rattle.spec_ir.specs.Views.{specification};
ghost use Rattle.semantics_values.specs.Types.{environment_of};
ghost use Rattle.abstract_value_laws.specs.Abs.{flag, word};
ghost use Rattle.abstract_value_laws.specs.Fits.{Fits};
ghost use Rattle.abstract_value_laws.specs.OfValues.{only};
ghost use Rattle.abstract_value.specs.View.{abs};
ghost use Rattle.abstract_semantics.specs.Steps as of;

use super::items::item_at;
use abstract_value::{AbstractValue, case_count, one_case};
use base_trait::{Base, Tri};
use spec_ir::Spec;
use std::alloc::{AllocError as NoMemory, Global};

/// The value of a variable, by its place.
pub fn looked_up<B: Base>(
    alloc: Global,
    ctx: &B::Ctx,
    env: &[AbstractValue<B>],
    n: u32,
) -> Result<Option<AbstractValue<B>>, NoMemory>
    requires fits { All (λ v. Fits B.algebra ctx.now B.CAP (abs v)) env.now }
    ensures value { IfOk result (λ r. option_map abs r ≡ slice_get (map abs env.now) n) }
    ensures fits { IfOk result (λ r. IfSome r (λ v. Fits B.algebra ctx.now B.CAP (abs v))) }
{
    match item_at(env, n) {
        Some(v) => Ok(Some(v.copy(alloc, ctx)?)),
        None => Ok(None),
    }
}

/// The flag of one truth value.
pub fn flag<B: Base>(b: bool) -> AbstractValue<B>
    ensures { abs result ≡ flag (only b) }
{
    AbstractValue::Flag(Tri {
        may_true: b,
        may_false: !b,
    })
}

/// The word of one number; nothing where it is none of the width.
pub fn word<B: Base>(
    alloc: Global,
    ctx: &B::Ctx,
    w: u32,
    v: u64,
) -> Result<Option<AbstractValue<B>>, NoMemory>
    ensures value { IfOk result (λ r. option_map abs r ≡ (if is_word w v then Some (word w (B.algebra.words.constant ctx.now w v)) else None)) }
    ensures fits { IfOk result (λ r. IfSome r (λ v. Fits B.algebra ctx.now B.CAP (abs v))) }
{
    if !is_word(w, v) {
        return Ok(None);
    }
    Ok(Some(AbstractValue::Word {
        w,
        x: B::constant(alloc, ctx, w, v)?,
    }))
}

/// Whether a number is one of w bits, and w a width.
fn is_word(w: u32, n: u64) -> bool
    ensures { result ≡ is_word w n }
{
    1 <= w && w <= 64 && (w == 64 || n < 1 << w)
}

/// The value of a constructor with these fields: it alone is present. Nothing where the datatype has no such constructor.
pub fn make_value<B: Base>(
    alloc: Global,
    ctx: &B::Ctx,
    spec: &Spec,
    ty: u32,
    case: u32,
    fields: Vec<AbstractValue<B>>,
) -> Result<Option<AbstractValue<B>>, NoMemory>
    requires fits { All (λ v. Fits B.algebra ctx.now B.CAP (abs v)) fields.items }
    ensures value { IfOk result (λ r. option_map abs r ≡ of.made_of (environment_of (specification spec.now)) ty case (map abs fields.items)) }
    ensures fits { IfOk result (λ r. IfSome r (λ v. Fits B.algebra ctx.now B.CAP (abs v))) }
{
    let count = case_count(spec, ty);
    if case as usize >= count {
        return Ok(None);
    }
    Ok(Some(AbstractValue::Data {
        ty,
        cases: one_case(alloc, count, case as usize, fields)?,
    }))
}
