//! The machines of the cases.

ghost use Rattle.std.specs.Prelude.{◌≤◌, ◌<◌, ◌^◌, IfSome, length};
ghost use Rattle.semantics_laws.specs.Accepted.{IsAccepted};
ghost use Rattle.spec_ir.specs.Views.{specification};
ghost use Rattle.program_common.specs.Sources.{source_cap};
ghost use Rattle.domain_laws.specs.States.{state_type};

use program_common::specification_of;
use spec_ir::{Spec, SpecUse};
use std::alloc::Global;

const MINI: &str = "map Reg [INT2 -> INT32] default 0;
type Instr = Set(d: INT2, v: INT16) | Add(d: INT2, a: INT2, b: INT2) | Jz(a: INT2, t: INT16);
type State = State(pc: INT32, r: Reg);
fun interpInstr(i: Instr, s: State) -> State =
  match s with { State(pc, r) => match i with {
    Set(d, v) => State(pc + 4:32, r[d := zext(v, 32)]);
    Add(d, a, b) => State(pc + 4:32, r[d := r[a] + r[b]]);
    Jz(a, t) => State(if r[a] == 0:32 then zext(t, 32) else pc + 4:32, r);
  }; };
decode {
  [1:8 0:6 d:2 v:16] => Set(d, v);
  [2:8 0:18 d:2 a:2 b:2] => Add(d, a, b);
  [3:8 0:6 a:2 t:16] => Jz(a, t);
}
";

/// The specification of a source, where memory lasts.
fn accepted(alloc: Global, source: &[u8]) -> Option<Spec>
    requires { length source.now ≤ source_cap }
    ensures accepted { IfSome result (λ spec. IsAccepted (specification spec)) }
    ensures few { IfSome result (λ spec. length (state_type (specification spec)).fields < 2 ^ 32) }
{
    match specification_of(alloc, source, SpecUse::Machine) {
        Ok(spec) => Some(spec),
        Err(_halt) => None,
    }
}

/// The specification of a name, where memory lasts.
pub(crate) fn machine(alloc: Global, name: &str) -> Option<Spec>
    ensures accepted { IfSome result (λ spec. IsAccepted (specification spec)) }
    ensures few { IfSome result (λ spec. length (state_type (specification spec)).fields < 2 ^ 32) }
{
    let source = match name {
        "mini" => MINI.as_bytes(),
        "ppc" => program_spec_powerpc::text().as_bytes(),
        _ => return None,
    };
    if source.len() > 262_144 {
        return None;
    }
    accepted(alloc, source)
}
