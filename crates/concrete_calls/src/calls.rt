//! Calls of functions.

ghost use Rattle.std.specs.Prelude.{ℕ, List, IfOk, map, []};
ghost use Rattle.spec_ir.specs.Specification.{Fun};
ghost use Rattle.spec_ir.specs.Views.{specification};
ghost use Rattle.semantics_values.specs.Values.{Val};
ghost use Rattle.semantics.specs.Runs.{meaning};
ghost use Rattle.semantics_laws.specs.Accepted.{IsAccepted};
ghost use Rattle.eval_code.specs.Lowered.{IsCodeOf};
ghost use Rattle.eval_code.specs.Views.{code};
ghost use Rattle.abstract_value.specs.View.{abs};
ghost use Rattle.concrete_calls.specs.Laws.{AreArgumentsFor};
ghost use Rattle.concrete_calls.specs.Calls.{IsCall, IsMeantBy};

use crate::outcome::CallResult;
use abstract_value::AbstractValue;
use base_concrete::Concrete;
use base_trait::Log;
use eval_code::EvaluatorCode;
use eval_memo::{EvalError, Setting};
use evaluator::eval_anew;
use spec_ir::Spec;
use std::alloc::{AllocError, Global};
use support_tail_fixpoint::Policy;

/// Calls function number `fun` on values, as a part of the instruction at an address, where each activation of a group of functions
/// has so many turns: its first body is the first turn, and each call within the group takes another.
pub fn evaluate_call(
    alloc: Global,
    spec: &Spec,
    cir: &EvaluatorCode,
    fun: u32,
    args: Vec<AbstractValue<Concrete>>,
    at: u32,
    turns: u32,
) -> Result<CallResult, AllocError>
    requires accepted { IsAccepted (specification spec.now) }
    requires code { IsCodeOf (code cir.now) (specification spec.now) }
    requires call { IsCall (specification spec.now) fun (map abs args.items) }
    ensures { (function : Fun) (vs : List Val) → AreArgumentsFor (specification spec.now) fun function (map abs args.items) vs
        → IfOk result (λ r. IsMeantBy (specification spec.now) function r (meaning (specification spec.now) at turns fun vs [])) }
{
    if turns == 0 {
        return Ok(CallResult::OutOfFuel);
    }
    let setting = Setting {
        spec,
        cir,
        ctx: &(),
        at,
        policy: Policy::Stop { turns },
    };
    let mut log = Log::new(alloc);
    match eval_anew(alloc, &setting, fun, args, &mut log) {
        Ok(Some(value)) => Ok(CallResult::Done(value)),
        Ok(None) => unreachable!(),
        Err(EvalError::OutOfFuel { .. }) => Ok(CallResult::OutOfFuel),
        Err(EvalError::NoMemory) => Err(AllocError),
    }
}
