//! States as values.

ghost use Rattle.std.specs.Prelude.{◌≡◌, map, option_map, IfOk};
ghost use Rattle.semantics_values.specs.States as states;
ghost use Rattle.semantics_values.specs.Values.{vals};
ghost use Rattle.semantics_values.specs.Views.{state, val};
ghost use Rattle.concrete_emulator.specs.Values as values;

use semantics_values::{State, Value, copy_all};
use std::alloc::{AllocError, Global};

/// The value of a state, where the datatype of states has this number.
pub(crate) fn value_of(alloc: Global, ty: u32, s: &State) -> Result<Value, AllocError>
    ensures { IfOk result (λ v. val v ≡ states.value_of ty (state s.now)) }
{
    let mut parts = copy_all(alloc, &s.parts)?;
    parts.insert(
        0,
        Value::Word {
            w: 32,
            v: u64::from(s.pc),
        },
    )?;
    Ok(Value::Made { ty, case: 0, parts })
}

/// The state that a value is.
pub(crate) fn state_of(v: Value) -> Option<State>
    ensures { option_map state result ≡ values.state_of (val v) }
{
    match v {
        Value::Made {
            ty: _ty,
            case: _case,
            parts,
        } => state_of_parts(parts),
        Value::Flag(_) | Value::Word { .. } | Value::Map(_) => None,
    }
}

/// The state of a constructor's fields.
fn state_of_parts(parts: Vec<Value>) -> Option<State>
    ensures { option_map state result ≡ values.state_of_parts (vals (map val parts.items)) }
{
    let mut parts = parts;
    if parts.is_empty() {
        return None;
    }
    match parts.remove(0) {
        Value::Word { w: _w, v } => match u32::try_from(v) {
            Ok(pc) => Some(State { pc, parts }),
            Err(_) => None,
        },
        Value::Flag(_) | Value::Made { .. } | Value::Map(_) => None,
    }
}
