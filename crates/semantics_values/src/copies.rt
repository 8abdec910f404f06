//! Copies of values.

ghost use Rattle.std.specs.Prelude.{◌≡◌, map, IfOk};
ghost use Rattle.semantics_values.specs.Views.{val};

use crate::value::Value;
use std::alloc::{AllocError, Global};

/// The same value again.
#[cycle(copy)]
pub fn copy(alloc: Global, v: &Value) -> Result<Value, AllocError>
    ensures { IfOk result (λ r. val r ≡ val v.now) }
{
    Ok(match v {
        Value::Flag(b) => Value::Flag(*b),
        Value::Word { w, v } => Value::Word { w: *w, v: *v },
        Value::Made { ty, case, parts } => Value::Made {
            ty: *ty,
            case: *case,
            parts: copy_all(alloc, parts)?,
        },
        Value::Map(m) => Value::Map(m.copy(alloc)?),
    })
}

/// The same values again.
#[cycle(copy)]
pub fn copy_all(alloc: Global, values: &[Value]) -> Result<Vec<Value>, AllocError>
    ensures { IfOk result (λ r. map val r.items ≡ map val values.now) }
{
    let mut out = Vec::new(alloc);
    for v in values {
        out.push(copy(alloc, v)?)?;
    }
    Ok(out)
}
