//! What cases give.

ghost use Rattle.std.specs.Prelude.{◌≡◌, ◌<◌, ◌^◌, IsTrue, length, true};
ghost use Rattle.spec_ir.specs.Views.{specification};
ghost use Rattle.domain_laws.specs.States.{has_states, state_type};
ghost use Rattle.domain_affine_laws.specs.Calls.{cell_count, is_for};
ghost use Rattle.test_affine_text.specs.Settings.{IsSetting};

use crate::elements::element;
use crate::machine::machine;
use crate::times::repeated;
use domain_affine::AffineDomain;
use domain_trait::Domain;
use spec_ir::Spec;
use std::alloc::{AllocError as NoMemory, Global};
use support_modular_rows::Rows;
use test_affine_text::{Setting, push_state, push_tracked};
use test_case_lines::{Read, Unread, both, given};

/// Appends the state value of an element at 1000.
fn push_opened(
    alloc: Global,
    out: &mut String,
    setting: &Setting<'_>,
    x: &Rows,
) -> Result<(), NoMemory>
    requires ready { IsSetting setting.now }
    requires fits { x.now.k ≡ cell_count setting.now.domain.now }
{
    let value = setting.domain.open(alloc, setting.spec, x, 4096)?;
    push_state(out, &value)
}

/// Appends the state value of the element of a text.
fn opened(alloc: Global, out: &mut String, setting: &Setting<'_>, text: &str) -> Read<()>
    requires { IsSetting setting.now }
{
    let x = element(alloc, setting, text)?;
    given(push_opened(alloc, out, setting, &x))
}

/// Appends whether each of two elements absorbs the other, and their ranks.
fn push_compared(
    out: &mut String,
    domain: &AffineDomain,
    x: &Rows,
    y: &Rows,
) -> Result<(), NoMemory>
    requires first { x.now.k ≡ cell_count domain.now }
    requires second { y.now.k ≡ cell_count domain.now }
{
    let (more, less) = (domain.absorbs(x, y), domain.absorbs(y, x));
    write!(out, "    absorbs {more} {less}")?;
    let (first, second) = (domain.rank(x), domain.rank(y));
    writeln!(out, " ranks {first} {second}")
}

/// The same of the elements of two texts.
fn compared(
    alloc: Global,
    out: &mut String,
    setting: &Setting<'_>,
    first: &str,
    second: &str,
) -> Read<()>
    requires { IsSetting setting.now }
{
    let x = element(alloc, setting, first)?;
    let (x, y) = both(x, element(alloc, setting, second))?;
    given(push_compared(out, setting.domain, &x, &y))
}

/// Appends what a call gives that is done many times.
fn timed(
    alloc: Global,
    out: &mut String,
    setting: &Setting<'_>,
    count: &str,
    call: &str,
) -> Read<()>
    requires { IsSetting setting.now }
{
    let Ok(n) = count.parse::<u64>() else {
        return Err(Unread::No);
    };
    let done = repeated(alloc, setting, n, call)?;
    given(writeln!(out, "    {done} times"))
}

/// Appends what a case gives that has two parts.
fn told_of_two(alloc: Global, out: &mut String, setting: &Setting<'_>, text: &str) -> Read<()>
    requires { IsSetting setting.now }
{
    if let Some((x, y)) = text.split_once(" | ") {
        return compared(alloc, out, setting, x, y);
    }
    match text.split_once(" times ") {
        Some((count, call)) => timed(alloc, out, setting, count, call),
        None => Err(Unread::No),
    }
}

/// Appends what a case gives in a setting.
fn told(alloc: Global, out: &mut String, setting: &Setting<'_>, text: &str) -> Read<()>
    requires { IsSetting setting.now }
{
    if text == "tracked" {
        return given(push_tracked(out, setting.ctx));
    }
    match text.strip_prefix("open ") {
        Some(x) => opened(alloc, out, setting, x),
        None => told_of_two(alloc, out, setting, text),
    }
}

/// Appends what a case gives in a domain.
fn in_domain(
    alloc: Global,
    out: &mut String,
    spec: &Spec,
    domain: &AffineDomain,
    text: &str,
) -> Read<()>
    requires { IsTrue (is_for domain.now (specification spec.now)) }
{
    let ctx = domain.ctx(alloc)?;
    let setting = Setting {
        spec,
        domain,
        ctx: &ctx,
    };
    told(alloc, out, &setting, text)
}

/// Appends what a case gives on a machine.
fn on_machine(alloc: Global, out: &mut String, spec: &Spec, text: &str) -> Read<()>
    requires states { has_states (specification spec.now) ≡ true }
    requires few { length (state_type (specification spec.now)).fields < 2 ^ 32 }
{
    let domain = AffineDomain::new(alloc, spec)?;
    in_domain(alloc, out, spec, &domain, text)
}

/// Appends what a case gives, where its fields and the rest are these.
fn push_case(alloc: Global, out: &mut String, fields: &str, text: &str) -> Result<(), NoMemory> {
    let told = match machine(alloc, fields)? {
        Some(spec) => on_machine(alloc, out, &spec, text),
        None => given(out.push_str("    no machine\n")),
    };
    match told {
        Ok(()) => Ok(()),
        Err(Unread::No) => out.push_str("    no case\n"),
        Err(Unread::NoMemory) => Err(NoMemory),
    }
}

/// Appends what the case of a line gives.
pub(crate) fn push_answer(alloc: Global, out: &mut String, line: &str) -> Result<(), NoMemory> {
    match line.split_once(" | ") {
        Some((fields, text)) => push_case(alloc, out, fields, text),
        None => out.push_str("    no case\n"),
    }
}
