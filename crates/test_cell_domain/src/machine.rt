//! The machine of the cases.

ghost use Rattle.std.specs.Prelude.{◌≡◌, IfSome, true};
ghost use Rattle.spec_ir.specs.Views.{specification};
ghost use Rattle.domain_laws.specs.States.{has_states};

use program_common::specification_of;
use spec_ir::{Spec, SpecUse};
use std::alloc::Global;

const SOURCE: &str = "map Reg [INT2 -> INT8] default 3;
type Instr = Nop(v: INT32);
type State = State(pc: INT32, a: INT8, r: Reg);
fun interpInstr(i: Instr, s: State) -> State = s;
decode {
  [v:32] => Nop(v);
}
";

/// The specification, where memory lasts.
pub(crate) fn machine(alloc: Global) -> Option<Spec>
    ensures { IfSome result (λ spec. has_states (specification spec) ≡ true) }
{
    let source = SOURCE.as_bytes();
    if source.len() > 262_144 {
        return None;
    }
    match specification_of(alloc, source, SpecUse::Machine) {
        Ok(spec) => Some(spec),
        Err(_halt) => None,
    }
}
