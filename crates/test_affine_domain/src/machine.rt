//! The machines of the cases.

ghost use Rattle.std.specs.Prelude.{◌≡◌, ◌≤◌, ◌<◌, ◌^◌, IfOk, IfSome, length, true};
ghost use Rattle.spec_ir.specs.Views.{specification};
ghost use Rattle.domain_laws.specs.States.{has_states, state_type};

use program_common::specification_of;
use spec_ir::{Spec, SpecUse};
use std::alloc::{AllocError as NoMemory, Global};

const TYPES: &str = "map Two [INT1 -> INT32] default 7;
map Regs [INT2 -> INT32] default 0;
map Many [INT5 -> INT32] default 0;
map Full [INT6 -> INT32] default 0;
map Wide [INT7 -> INT32] default 0;
map Bytes [INT2 -> INT8] default 3;
type Side = Left | Right;
map Sides [Side -> INT32] default 1;
type Instr = Nop(v: INT32);
fun interpInstr(i: Instr, s: State) -> State = s;
decode {
  [v:32] => Nop(v);
}
type State = State(pc: INT32";

/// The specification of a source; none where that has a fault.
fn checked(alloc: Global, source: &[u8]) -> Option<Spec>
    requires short { length source.now ≤ 262144 }
    ensures states { IfSome result (λ spec. has_states (specification spec) ≡ true) }
    ensures few { IfSome result (λ spec. length (state_type (specification spec)).fields < 2 ^ 32) }
{
    match specification_of(alloc, source, SpecUse::Machine) {
        Ok(spec) => Some(spec),
        Err(halt) => {
            drop(halt);
            None
        }
    }
}

/// The specification of a machine whose states have these fields behind the counter; none where its text has a fault.
pub(crate) fn machine(alloc: Global, fields: &str) -> Result<Option<Spec>, NoMemory>
    ensures states { IfOk result (λ o. IfSome o (λ spec. has_states (specification spec) ≡ true)) }
    ensures few { IfOk result (λ o. IfSome o (λ spec. length (state_type (specification spec)).fields < 2 ^ 32)) }
{
    let comma = if fields.is_empty() { "" } else { ", " };
    let source = format!(in alloc; "{}{}{});\n", TYPES, comma, fields)?;
    if source.len() > 262_144 {
        return Ok(None);
    }
    Ok(checked(alloc, source.as_bytes()))
}
