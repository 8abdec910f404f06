//! Functions and their arguments.

ghost use Rattle.std.specs.Prelude.{All, IfOk, map};
ghost use Rattle.abstract_value_laws.specs.Fits.{Fits};
ghost use Rattle.abstract_value.specs.View.{abs};
ghost use Rattle.abstract_semantics.specs.Calls.{AreArguments};
ghost use Rattle.eval_memo.specs.Settings.{spec_of};

use abstract_value::AbstractValue;
use base_trait::Base;
use eval_group_turns::are_typed;
use eval_memo::Setting;
use spec_ir::{Spec, Ty};
use std::alloc::Global;
use test_case_lines::{Read, Unread};
use test_value_text::{pushed, value};

/// The function of a name, by its number.
pub(crate) fn function(spec: &Spec, name: &str) -> Option<u32> {
    for (number, fun) in spec.funs.iter().enumerate() {
        if fun.name.as_str() == name {
            return u32::try_from(number).ok();
        }
    }
    None
}

/// The value of the parameter at a place.
fn parameter<B: Base>(
    alloc: Global,
    ctx: &B::Ctx,
    spec: &Spec,
    params: &[Ty],
    place: usize,
    text: &str,
) -> Read<AbstractValue<B>>
    ensures { IfOk result (λ v. Fits B.algebra ctx.now B.CAP (abs v)) }
{
    match params.get(place) {
        Some(ty) => value(alloc, ctx, spec, *ty, text),
        None => Err(Unread::No),
    }
}

/// The values of texts with ` | ` between, by the types of parameters.
fn values<B: Base>(
    alloc: Global,
    ctx: &B::Ctx,
    spec: &Spec,
    params: &[Ty],
    texts: &str,
) -> Read<Vec<AbstractValue<B>>>
    ensures { IfOk result (λ vs. All (λ v. Fits B.algebra ctx.now B.CAP (abs v)) vs.items) }
{
    let mut out = Vec::new(alloc);
    for text in texts.split(" | ") {
        let next = parameter(alloc, ctx, spec, params, out.len(), text);
        out = pushed(out, next)?;
    }
    Ok(out)
}

/// The arguments of a function that texts with ` | ` between write.
pub(crate) fn arguments<B: Base>(
    alloc: Global,
    setting: &Setting<B>,
    function: u32,
    texts: &str,
) -> Read<Vec<AbstractValue<B>>>
    ensures { IfOk result (λ xs. AreArguments B.algebra setting.now.ctx.now B.CAP (spec_of setting.now) function (map abs xs.items)) }
{
    let Some(fun) = setting.spec.funs.get(function as usize) else {
        return Err(Unread::No);
    };
    let args = values::<B>(alloc, setting.ctx, setting.spec, &fun.params, texts)?;
    if are_typed(setting.spec, function, &args) {
        Ok(args)
    } else {
        Err(Unread::No)
    }
}
