//! What cases give.

ghost use Rattle.std.specs.Prelude.{◌≤◌, ◌&&◌, IfSome, IsTrue, length};
ghost use Rattle.spec_ir.specs.Views.{specification};
ghost use Rattle.program_common.specs.Sources.{source_cap};
ghost use Rattle.semantics_laws.specs.Accepted.{IsAccepted};
ghost use Rattle.support_tail_fixpoint.specs.Activation.{HasTurn};
ghost use Rattle.abstract_semantics.specs.CallLaws.{JoinsUnder};
ghost use Rattle.evaluator.specs.Calls.{MayEvaluate};

use crate::arguments::{arguments, function};
use crate::called::called;
use base_concrete::Concrete;
use base_defuse::DefUse;
use base_interval::Interval;
use base_kset::KSet;
use base_product::{Pair, Paired};
use eval_code_lowering::lower;
use eval_memo::Setting;
use program_common::specification_of;
use spec_ir::{Spec, SpecUse};
use std::alloc::{AllocError as NoMemory, Global};
use support_tail_fixpoint::Policy;
use test_case_lines::Unread;
use text_words::BaseText;

/// The address of the instruction.
const AT: u32 = 4096;

/// The specification of a text that is a library without a fault, where memory lasts.
fn library(alloc: Global, source: &[u8]) -> Option<Spec>
    requires { length source.now ≤ source_cap }
    ensures { IfSome result (λ spec. IsAccepted (specification spec)) }
{
    match specification_of(alloc, source, SpecUse::Library) {
        Ok(spec) => Some(spec),
        Err(_halt) => None,
    }
}

/// The policy of `stop TURNS` or `widen UNROLL DELAY`, in decimal.
fn policy(text: &str) -> Option<Policy>
    ensures { IfSome result HasTurn }
{
    if let Some((unroll, delay)) = text.strip_prefix("widen ").and_then(|t| t.split_once(' ')) {
        let unroll = unroll.parse::<u32>().ok()?;
        let delay = delay.parse::<u32>().ok()?;
        return Some(Policy::Widen { unroll, delay });
    }
    match text.strip_prefix("stop ")?.parse::<u32>() {
        Ok(turns) if turns >= 1 => Some(Policy::Stop { turns }),
        _ => None,
    }
}

fn no_case(alloc: Global) -> Result<String, NoMemory> {
    String::from_str(alloc, "    no case\n")
}

/// What a call gives in a setting.
fn answered<B: BaseText>(
    alloc: Global,
    setting: &Setting<B>,
    call: &str,
) -> Result<String, NoMemory>
    requires { MayEvaluate B.algebra B.CAP setting.now }
{
    let Some((name, texts)) = call.split_once(" | ") else {
        return no_case(alloc);
    };
    let Some(function) = function(setting.spec, name) else {
        return no_case(alloc);
    };
    match arguments::<B>(alloc, setting, function, texts) {
        Ok(args) => called::<B>(alloc, setting, function, &args),
        Err(Unread::No) => no_case(alloc),
        Err(Unread::NoMemory) => Err(NoMemory),
    }
}

/// What a call gives over a base.
fn over<B: BaseText>(
    alloc: Global,
    ctx: &B::Ctx,
    spec: &Spec,
    policy: Policy,
    call: &str,
) -> Result<String, NoMemory>
    requires accepted { IsAccepted (specification spec.now) }
    requires turn { HasTurn policy }
    requires joins { JoinsUnder B.algebra policy }
{
    let cir = lower(alloc, spec)?;
    let setting: Setting<B> = Setting {
        spec,
        cir: &cir,
        ctx,
        at: AT,
        policy,
    };
    answered(alloc, &setting, call)
}

/// The same over a base that joins.
fn over_joining<B: BaseText>(
    alloc: Global,
    ctx: &B::Ctx,
    spec: &Spec,
    policy: Policy,
    call: &str,
) -> Result<String, NoMemory>
    requires accepted { IsAccepted (specification spec.now) }
    requires turn { HasTurn policy }
    requires joins { IsTrue B.algebra.joins }
{
    over::<B>(alloc, ctx, spec, policy, call)
}

/// The same over two bases side by side.
fn over_both<A: BaseText, B: BaseText>(
    alloc: Global,
    ctx: &Pair<A::Ctx, B::Ctx>,
    spec: &Spec,
    policy: Policy,
    call: &str,
) -> Result<String, NoMemory>
    requires accepted { IsAccepted (specification spec.now) }
    requires turn { HasTurn policy }
    requires joins { IsTrue (A.algebra.joins && B.algebra.joins) }
{
    over_joining::<Paired<A, B>>(alloc, ctx, spec, policy, call)
}

/// What a call gives over the base of a name.
fn over_named(
    alloc: Global,
    base: &str,
    spec: &Spec,
    policy: Policy,
    call: &str,
) -> Result<String, NoMemory>
    requires accepted { IsAccepted (specification spec.now) }
    requires turn { HasTurn policy }
{
    match (base, policy) {
        ("concrete", Policy::Stop { turns }) => {
            over::<Concrete>(alloc, &(), spec, Policy::Stop { turns }, call)
        }
        ("kset", _) => over_joining::<KSet<16>>(alloc, &(), spec, policy, call),
        ("interval", _) => over_joining::<Interval>(alloc, &(), spec, policy, call),
        ("kset+defuse", _) => {
            over_both::<KSet<16>, DefUse>(alloc, &Pair((), ()), spec, policy, call)
        }
        _ => no_case(alloc),
    }
}

/// What a case of a specification gives.
pub(crate) fn answer(alloc: Global, source: &str, case: &str) -> Result<String, NoMemory> {
    if source.len() > 262_144 {
        return String::from_str(alloc, "    no specification\n");
    }
    let Some(spec) = library(alloc, source.as_bytes()) else {
        return String::from_str(alloc, "    no specification\n");
    };
    let Some((setting, call)) = case.split_once(" | ") else {
        return no_case(alloc);
    };
    let (base, words) = setting.split_once(' ').unwrap_or((setting, ""));
    match policy(words) {
        Some(policy) => over_named(alloc, base, &spec, policy, call),
        None => no_case(alloc),
    }
}
