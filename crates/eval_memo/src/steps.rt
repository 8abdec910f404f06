//! Steps of an evaluation that evaluate nothing.

ghost use Rattle.std.specs.Prelude.{◌≡◌, ◌++◌, ◌<◌, Some, None, true, length, map, option_map, slice_get, IfOk, IfSome, OnErr, OnOk};
ghost use Rattle.base_trait.specs.Lists.{IsGrown};
ghost use Rattle.base_trait.specs.Uses.{uses_of};
ghost use Rattle.spec_ir.specs.Views.{specification};
ghost use Rattle.semantics_values.specs.Types.{environment_of};
ghost use Rattle.semantics.specs.Direct as meaning;
ghost use Rattle.abstract_value_laws.specs.Abs.{parts};
ghost use Rattle.abstract_value_laws.specs.Types as types;
ghost use Rattle.abstract_value.specs.View.{abs};
ghost use Rattle.support_tail_fixpoint.specs.Answer.{gives};
ghost use Rattle.abstract_semantics.specs.Answers.{behind};
ghost use Rattle.abstract_semantics.specs.Terms.{params_of};
ghost use Rattle.eval_code.specs.Views.{code, tail};
ghost use Rattle.eval_memo.specs.Memos.{AreTrue, Holds, IsNew, Keeps, Stands, called, entries};
ghost use Rattle.eval_memo.specs.Ready.{IsReady};
ghost use Rattle.eval_memo.specs.Settings.{spec_of};

use crate::call::Call;
use crate::memo::{Memo, Outcome, find, keep};
use crate::setting::{Known, Setting};
use abstract_value::{AbstractValue, put};
use base_trait::{Base, Log, Stamp};
use eval_code::Tail;
use spec_ir::{Spec, Ty};
use std::alloc::{AllocError as NoMemory, Global};
use std::sync::ledger::Ledger;
use support_step_counter::Steps;

/// The group of a function.
pub fn group_of(spec: &Spec, fun: u32) -> u32
    ensures { result ≡ meaning.group_of (specification spec.now) fun }
{
    match spec.funs.get(fun as usize) {
        Some(f) => f.group,
        None => 0,
    }
}

/// Whether values have the types of a function's parameters.
pub fn are_arguments<B: Base>(spec: &Spec, fun: u32, args: &[AbstractValue<B>]) -> bool
    requires there { fun < length (specification spec.now).funs }
    ensures { result ≡ types.have_types (environment_of (specification spec.now)) (parts (map abs args.now)) (params_of (specification spec.now) fun) }
{
    let f = &spec.funs[fun as usize];
    have_types::<B>(spec, &f.params, args)
}

/// Whether values have types, each the one of its place.
fn have_types<B: Base>(spec: &Spec, params: &[Ty], args: &[AbstractValue<B>]) -> bool
    ensures { result ≡ types.have_types (environment_of (specification spec.now)) (parts (map abs args.now)) params.now }
{
    if args.len() != params.len() {
        return false;
    }
    for i in 0..args.len() {
        let Some(ty) = params.get(i) else {
            return false;
        };
        if !args[i].has_type(spec, *ty) {
            return false;
        }
    }
    true
}

/// The same values once more.
pub fn copy_all<B: Base>(
    alloc: Global,
    ctx: &B::Ctx,
    xs: &[AbstractValue<B>],
) -> Result<Vec<AbstractValue<B>>, NoMemory>
    ensures { IfOk result (λ r. map abs r.items ≡ map abs xs.now) }
{
    let mut out = Vec::with_capacity(alloc, xs.len())?;
    for x in xs {
        put(&mut out, x.copy(alloc, ctx)?)?;
    }
    Ok(out)
}

/// The code of the body of a function.
pub fn body_of<'a, B: Base, K: Known<B>>(setting: &Setting<'a, B>, fun: usize) -> &'a Tail
    requires setting { IsReady B.algebra B.CAP setting.now K.spec (K.calls setting.now.ctx.now) }
    requires there { fun < length (spec_of setting.now).funs }
    ensures { option_map (λ f. f.body) (slice_get (code setting.now.cir.now) fun) ≡ Some (tail result.now) }
{
    &setting.cir.funs[fun].body
}

/// The same stamps once more.
fn copy_stamps(alloc: Global, stamps: &[Stamp]) -> Result<Vec<Stamp>, NoMemory>
    ensures { IfOk result (λ r. r.items ≡ stamps.now) }
{
    let mut out = Vec::new(alloc);
    for stamp in stamps {
        out.push(*stamp)?;
    }
    Ok(out)
}

/// Adds the reads of another log. Where memory runs out a front of them may have been added.
pub fn append(alloc: Global, log: &mut Log, more: &Log) -> Result<(), NoMemory>
    ensures value { OnOk result (uses_of log.new ≡ uses_of log.old ++ uses_of more.now) }
    ensures grown { IsGrown (uses_of log.old) (uses_of log.new) }
{
    for read in &more.uses {
        let from = copy_stamps(alloc, &read.from)?;
        log.record(read.map, read.key, from)?;
    }
    Ok(())
}

/// The same value once more, if there is one.
fn copy_some<B: Base>(
    alloc: Global,
    ctx: &B::Ctx,
    v: &Option<AbstractValue<B>>,
) -> Result<Option<AbstractValue<B>>, NoMemory>
    ensures { IfOk result (λ r. option_map abs r ≡ option_map abs v.now) }
{
    match v {
        Some(v) => Ok(Some(v.copy(alloc, ctx)?)),
        None => Ok(None),
    }
}

/// What is known of a call: its value, or none, and its reads are added to the log. A call on arguments of other types is known to
/// have no value. Nothing where the call is new: then its arguments have the types of the parameters.
#[inline(never)]
pub fn recall_call<B: Base, K: Known<B>>(
    alloc: Global,
    setting: &Setting<B>,
    memo: &Memo<B>,
    fun: u32,
    args: &[AbstractValue<B>],
    log: &mut Log,
) -> Result<Option<Option<AbstractValue<B>>>, NoMemory>
    requires setting { IsReady B.algebra B.CAP setting.now K.spec (K.calls setting.now.ctx.now) }
    requires there { fun < length (spec_of setting.now).funs }
    requires memo { AreTrue (K.calls setting.now.ctx.now) (entries memo.now) }
    ensures value { IfOk result (λ r. IfSome r (λ v. behind (uses_of log.old) (K.calls setting.now.ctx.now fun (map abs args.now)) ≡ gives (option_map abs v) (uses_of log.new))) }
    ensures new { IfOk result (λ r. r ≡ None → uses_of log.new ≡ uses_of log.old) }
    ensures unknown { IfOk result (λ r. r ≡ None → IsNew fun (map abs args.now) (entries memo.now)) }
    ensures typed { IfOk result (λ r. r ≡ None → types.have_types (environment_of (spec_of setting.now)) (parts (map abs args.now)) (params_of (spec_of setting.now) fun) ≡ true) }
    ensures held { IfOk result (λ r. IfSome r (λ _. types.have_types (environment_of (spec_of setting.now)) (parts (map abs args.now)) (params_of (spec_of setting.now) fun) ≡ true → Holds fun (map abs args.now) (entries memo.now))) }
    ensures grown { IsGrown (uses_of log.old) (uses_of log.new) }
{
    if !are_arguments(setting.spec, fun, args) {
        return Ok(Some(None));
    }
    match find(memo, fun, args) {
        Some(outcome) => {
            append(alloc, log, &outcome.reads)?;
            Ok(Some(copy_some(alloc, setting.ctx, &outcome.value)?))
        }
        None => Ok(None),
    }
}

/// The value of a call that was evaluated. It is kept with its own reads, where it is new, and they are added to the log. Where
/// memory runs out, the memo stays as it was, and the log may have grown.
#[inline(never)]
pub fn record_call<B: Base, K: Known<B>, L: Ledger>(
    alloc: Global,
    setting: &Setting<B>,
    fun: u32,
    args: Vec<AbstractValue<B>>,
    value: Option<AbstractValue<B>>,
    own: Log,
    memo: &mut Memo<B>,
    steps: &mut Steps<L>,
    log: &mut Log,
) -> Result<Option<AbstractValue<B>>, NoMemory>
    requires memo { Stands (K.calls setting.now.ctx.now) K.before K.ticked (entries memo.old) steps.old }
    requires value { K.calls setting.now.ctx.now fun (map abs args.items) ≡ gives (option_map abs value) (uses_of own) }
    ensures value { IfOk result (λ r. option_map abs r ≡ option_map abs value) }
    ensures log { OnOk result (uses_of log.new ≡ uses_of log.old ++ uses_of own) }
    ensures grown { IsGrown (uses_of log.old) (uses_of log.new) }
    ensures memo { Stands (K.calls setting.now.ctx.now) K.before K.ticked (entries memo.new) steps.new }
    ensures kept { OnOk result (Keeps (entries memo.old) (called fun (map abs args.items) (option_map abs value) (uses_of own)) (entries memo.new)) }
    ensures unchanged { OnErr result (entries memo.new ≡ entries memo.old) }
{
    append(alloc, log, &own)?;
    let again = copy_some(alloc, setting.ctx, &value)?;
    let call = Call {
        function: fun,
        args,
    };
    let outcome = Outcome { value, reads: own };
    keep::<B, K, L>(setting, memo, steps, call, outcome)?;
    Ok(again)
}
