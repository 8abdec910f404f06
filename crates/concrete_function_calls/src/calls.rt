//! Calls of functions by words.

ghost use Rattle.std.specs.Prelude.{◌≡◌, ◌<◌, [], IfOk, IfSome, bytes_eq, length, map, option_map, position};
ghost use Rattle.spec_ir.specs.Views.{specification};
ghost use Rattle.semantics_values.specs.Views.{val};
ghost use Rattle.semantics_laws.specs.Accepted.{IsAccepted};
ghost use Rattle.concrete_function_calls.specs.Arguments.{borrowed};
ghost use Rattle.concrete_function_calls.specs.Calls.{call_end, called, end_of_meaning, is_written, number_of};
ghost use Rattle.semantics.specs.Runs.{meaning};
ghost use Rattle.concrete_function_calls.specs.Ends.{end_of};
ghost use Rattle.concrete_function_calls.specs.Written.{IsWrittenCall};

use crate::arguments::arguments;
use concrete_calls::{CallResult, evaluate_call, standing, value_in};
use eval_code_lowering::lower;
use semantics_values::Value;
use spec_ir::{Fun, Spec, Ty};
use std::alloc::{AllocError, Global};

/// What a call by words comes to.
#[derive(Drop)]
pub enum CallEnd {
    /// The value of the function.
    Value(Value),
    /// There is no such function, or these are no arguments of it.
    BadWords,
    /// The turns of an activation ran out.
    Spent,
}

/// Calls the function of a name on the arguments that the texts write, where each activation has so many turns.
pub fn call_by_words(
    alloc: Global,
    spec: &Spec,
    fun: &str,
    texts: &[&str],
    turns: u32,
) -> Result<CallEnd, AllocError>
    requires { IsAccepted (specification spec.now) }
    ensures { IfOk result (λ end. end_of end ≡ call_end (specification spec.now) turns fun.now (borrowed texts.now)) }
{
    match named_call(alloc, spec, fun, texts)? {
        Some((number, args)) => end_of_call(alloc, spec, number, args, turns),
        None => Ok(CallEnd::BadWords),
    }
}

/// What the call of a function on arguments of its types comes to.
fn end_of_call(
    alloc: Global,
    spec: &Spec,
    number: u32,
    args: Vec<Value>,
    turns: u32,
) -> Result<CallEnd, AllocError>
    requires accepted { IsAccepted (specification spec.now) }
    requires call { IsWrittenCall (specification spec.now) number (map val args.items) }
    ensures { IfOk result (λ end. end_of end
        ≡ end_of_meaning (meaning (specification spec.now) 0 turns number (map val args.items) [])) }
{
    let cir = lower(alloc, spec)?;
    let args = standing(alloc, spec, &args)?;
    match evaluate_call(alloc, spec, &cir, number, args, 0, turns)? {
        CallResult::Done(value) => Ok(CallEnd::Value(value_in(alloc, &value)?)),
        CallResult::OutOfFuel => Ok(CallEnd::Spent),
    }
}

/// The function and the arguments that the words name.
fn named_call(
    alloc: Global,
    spec: &Spec,
    fun: &str,
    texts: &[&str],
) -> Result<Option<(u32, Vec<Value>)>, AllocError>
    ensures { IfOk result (λ found. option_map (λ call. (call.0, map val call.1.items)) found
        ≡ called (specification spec.now) fun.now (borrowed texts.now)) }
{
    let Some(number) = function_named(spec, fun)? else {
        return Ok(None);
    };
    let function = &spec.funs[number as usize];
    if !is_written(function.result) {
        return Ok(None);
    }
    match arguments(alloc, &function.params, texts)? {
        Some(args) => Ok(Some((number, args))),
        None => Ok(None),
    }
}

/// The number of the function of a name. More than 2^32 functions take more memory than there is.
fn function_named(spec: &Spec, name: &str) -> Result<Option<u32>, AllocError>
    ensures value { IfOk result (λ found. found ≡ number_of (specification spec.now) name.now) }
    ensures within { IfOk result (λ found. IfSome found (λ number. number < length spec.now.funs.items)) }
{
    match place_of(&spec.funs, name) {
        Some(number) => match u32::try_from(number) {
            Ok(number) => Ok(Some(number)),
            Err(_) => Err(AllocError),
        },
        None => Ok(None),
    }
}

/// The place of the function of a name.
fn place_of(funs: &[Fun], name: &str) -> Option<usize>
    ensures { result ≡ position (λ f. bytes_eq f.name name.now) funs.now }
{
    funs.iter()
        .position(|function| function.name.as_str() == name)
}

/// Whether values of a type are written on the command line.
fn is_written(ty: Ty) -> bool
    ensures { result ≡ is_written ty }
{
    matches!(ty, Ty::Word(_) | Ty::Bool)
}
