//! Calls that are done many times, to take their time.

ghost use Rattle.std.specs.Prelude.{◌≡◌};
ghost use Rattle.spec_ir.specs.Views.{specification};
ghost use Rattle.domain_laws.specs.States.{state_type};
ghost use Rattle.domain_laws.specs.Values.{IsStateValue};
ghost use Rattle.domain_affine_base.specs.Meaning.{affine};
ghost use Rattle.domain_affine_laws.specs.Calls.{cell_count};
ghost use Rattle.domain_affine_laws.specs.Tracked.{tracked_cells};
ghost use Rattle.abstract_value.specs.View.{abs};
ghost use Rattle.test_affine_text.specs.Settings.{IsSetting};

use crate::elements::{operand, operands, with_changes};
use abstract_value::AbstractValue;
use domain_affine::AffineDomain;
use domain_affine_base::Affine;
use domain_trait::Domain;
use std::alloc::{AllocError as NoMemory, Global};
use support_modular_rows::Rows;
use test_affine_text::Setting;
use test_case_lines::{Read, Unread, given};

/// Opens an element n times, and says how often.
fn open_often(alloc: Global, setting: &Setting<'_>, n: u64, x: &Rows) -> Result<u64, NoMemory>
    requires ready { IsSetting setting.now }
    requires fits { x.now.k ≡ cell_count setting.now.domain.now }
{
    for _ in 0..n {
        let _value = setting.domain.open(alloc, setting.spec, x, 4096)?;
    }
    Ok(n)
}

/// Closes a state value n times, and says how often.
fn close_often(
    alloc: Global,
    setting: &Setting<'_>,
    n: u64,
    x: &Rows,
    value: &AbstractValue<Affine>,
) -> Result<u64, NoMemory>
    requires ready { IsSetting setting.now }
    requires fits { x.now.k ≡ cell_count setting.now.domain.now }
    requires state { IsStateValue affine (tracked_cells setting.now.domain.now) 256 (state_type (specification setting.now.spec.now)) (abs value.now) }
{
    for _ in 0..n {
        let _closed = setting.domain.close(alloc, setting.spec, x, value)?;
    }
    Ok(n)
}

/// Joins two elements n times, and says how often.
fn join_often(
    alloc: Global,
    domain: &AffineDomain,
    n: u64,
    x: &Rows,
    y: &Rows,
) -> Result<u64, NoMemory>
    requires left { x.now.k ≡ cell_count domain.now }
    requires right { y.now.k ≡ cell_count domain.now }
{
    for _ in 0..n {
        let _joined = domain.join(alloc, x, y)?;
    }
    Ok(n)
}

/// How many times of n the first absorbs the second.
fn absorb_often(domain: &AffineDomain, n: u64, x: &Rows, y: &Rows) -> u64
    requires old { x.now.k ≡ cell_count domain.now }
    requires new { y.now.k ≡ cell_count domain.now }
{
    let mut count = 0u64;
    for _ in 0..n {
        if domain.absorbs(x, y) {
            count = count.wrapping_add(1);
        }
    }
    count
}

/// Opens an element n times.
fn opened(alloc: Global, setting: &Setting<'_>, n: u64, text: &str) -> Read<u64>
    requires { IsSetting setting.now }
{
    let x = operand(alloc, setting, text)?;
    given(open_often(alloc, setting, n, &x))
}

/// Closes the state value of an element with changes n times.
fn closed(alloc: Global, setting: &Setting<'_>, n: u64, text: &str) -> Read<u64>
    requires { IsSetting setting.now }
{
    let (x, value) = with_changes(alloc, setting, text)?;
    given(close_often(alloc, setting, n, &x, &value))
}

/// Joins two elements n times.
fn joined(alloc: Global, setting: &Setting<'_>, n: u64, text: &str) -> Read<u64>
    requires { IsSetting setting.now }
{
    let (x, y) = operands(alloc, setting, text, " and ")?;
    given(join_often(alloc, setting.domain, n, &x, &y))
}

/// How many times of n an element absorbs another.
fn absorbed(alloc: Global, setting: &Setting<'_>, n: u64, text: &str) -> Read<u64>
    requires { IsSetting setting.now }
{
    let (x, y) = operands(alloc, setting, text, " and ")?;
    Ok(absorb_often(setting.domain, n, &x, &y))
}

/// Does a call n times: `open X`, `close X with CHANGES`, `join X and Y`, or `absorb X and Y`, and says how many times it did it
/// or, of the last, how many times the answer was yes.
pub(crate) fn repeated(alloc: Global, setting: &Setting<'_>, n: u64, text: &str) -> Read<u64>
    requires { IsSetting setting.now }
{
    if let Some(rest) = text.strip_prefix("open ") {
        return opened(alloc, setting, n, rest);
    }
    if let Some(rest) = text.strip_prefix("close ") {
        return closed(alloc, setting, n, rest);
    }
    if let Some(rest) = text.strip_prefix("join ") {
        return joined(alloc, setting, n, rest);
    }
    if let Some(rest) = text.strip_prefix("absorb ") {
        return absorbed(alloc, setting, n, rest);
    }
    Err(Unread::No)
}
