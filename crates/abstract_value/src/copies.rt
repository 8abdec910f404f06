//! Copies of values.

ghost use Rattle.std.specs.Prelude.{◌≡◌, IfOk};
ghost use Rattle.abstract_value.specs.View.{abs};

use super::value::AbstractValue;
use base_trait::Base;
use std::alloc::{AllocError as NoMemory, Global};

/// The same value once more. Of a constructor value the fields are shared.
pub(crate) fn copy<B: Base>(
    alloc: Global,
    ctx: &B::Ctx,
    v: &AbstractValue<B>,
) -> Result<AbstractValue<B>, NoMemory>
    ensures { IfOk result (λ r. abs r ≡ abs v.now) }
{
    match v {
        AbstractValue::Flag(t) => Ok(AbstractValue::Flag(*t)),
        AbstractValue::Word { w, x } => Ok(AbstractValue::Word {
            w: *w,
            x: B::copy(alloc, ctx, x)?,
        }),
        AbstractValue::Data { ty, cases } => Ok(AbstractValue::Data {
            ty: *ty,
            cases: cases.copy(alloc)?,
        }),
        AbstractValue::Map { map, m } => Ok(AbstractValue::Map {
            map: *map,
            m: m.copy(alloc, ctx)?,
        }),
    }
}
