//! What slots of a frame give, with no further evaluation.

ghost use Rattle.std.specs.Prelude.{◌≡◌, ◌<◌, ◌++◌, ◌∷◌, [], length, map, option_map, slice_get, All, IfOk, IfSome, OnOk};
ghost use Rattle.semantics_laws.specs.Places.{all_of};
ghost use Rattle.abstract_value_laws.specs.Fits.{Fits};
ghost use Rattle.abstract_value.specs.View.{abs};
ghost use Rattle.eval_activation.specs.Views.{yield};
ghost use Rattle.eval_memo.specs.Ready.{YieldFits};
ghost use Rattle.eval_memo.specs.Settings.{group_of, spec_of};
ghost use Rattle.evaluator.specs.Arms as of;

use abstract_value::{AbstractValue, put};
use base_trait::Base;
use eval_activation::{TurnYield, call_in_group};
use eval_memo::Setting;
use eval_nodes::{at_slot, copies};
use std::alloc::{AllocError as NoMemory, Global};

/// How many slots a new frame has room for at least.
const ROOM: usize = 16;

/// The frame of a function on arguments, which are copied.
#[inline(never)]
pub(crate) fn frame_of<B: Base>(
    alloc: Global,
    ctx: &B::Ctx,
    args: &[AbstractValue<B>],
) -> Result<Vec<AbstractValue<B>>, NoMemory>
    ensures { IfOk result (λ r. map abs r.items ≡ map abs args.now) }
{
    let mut frame = Vec::with_capacity(alloc, args.len().max(ROOM))?;
    for arg in args {
        put(&mut frame, arg.copy(alloc, ctx)?)?;
    }
    Ok(frame)
}

/// The value of a slot once more, where it is written.
#[inline(never)]
pub(crate) fn copy_slot<B: Base>(
    alloc: Global,
    ctx: &B::Ctx,
    frame: &[AbstractValue<B>],
    s: u32,
) -> Result<Option<AbstractValue<B>>, NoMemory>
    requires frame { All (λ v. Fits B.algebra ctx.now B.CAP (abs v)) frame.now }
    ensures value { IfOk result (λ r. option_map abs r ≡ slice_get (map abs frame.now) s) }
    ensures fits { IfOk result (λ r. IfSome r (λ v. Fits B.algebra ctx.now B.CAP (abs v))) }
{
    match at_slot(ctx, frame, s) {
        Some(v) => Ok(Some(v.copy(alloc, ctx)?)),
        None => Ok(None),
    }
}

/// A call within the group on slots, where all are written and have the types of the parameters.
#[inline(never)]
pub(crate) fn ask_turn<B: Base>(
    alloc: Global,
    setting: &Setting<B>,
    group: u32,
    frame: &[AbstractValue<B>],
    fun: u32,
    args: &[u32],
) -> Result<Option<TurnYield<B>>, NoMemory>
    requires frame { All (λ v. Fits B.algebra setting.now.ctx.now B.CAP (abs v)) frame.now }
    requires there { fun < length (spec_of setting.now).funs }
    requires of_group { group_of setting.now fun ≡ group }
    ensures value { IfOk result (λ r. option_map yield r ≡ of.asked_on (spec_of setting.now) fun (all_of (slice_get (map abs frame.now)) args.now)) }
    ensures fits { IfOk result (λ r. IfSome r (λ v. YieldFits B.algebra B.CAP setting.now group (yield v))) }
{
    match copies(alloc, setting.ctx, frame, args)? {
        Some(args) => call_in_group(alloc, setting, group, fun, args),
        None => Ok(None),
    }
}

/// Puts a value into the next slot of a frame.
#[inline(never)]
pub(crate) fn push_value<B: Base>(
    frame: &mut Vec<AbstractValue<B>>,
    v: AbstractValue<B>,
) -> Result<(), NoMemory>
    ensures { OnOk result (frame.new.items ≡ frame.old.items ++ v ∷ []) }
{
    put(frame, v)
}
