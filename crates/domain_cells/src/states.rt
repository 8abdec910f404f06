//! State values.

ghost use Rattle.std.specs.Prelude.{◌≡◌, IfOk, drop, map};
ghost use Rattle.abstract_value_laws.specs.Abs as plain;
ghost use Rattle.abstract_value_laws.specs.Abs.{parts};
ghost use Rattle.domain_laws.specs.Calls.{behind_first, fields_of, made_state};
ghost use Rattle.abstract_value.specs.View.{abs, cases_of};

use crate::values::{copied_behind, copies};
use abstract_value::{AbstractValue, Constructors, one_case};
use base_trait::Base;
use std::alloc::{AllocError as NoMemory, Global};
use support_lists::pushed;

/// The value of a state with this counter and these values of its other fields.
pub(crate) fn open_state<B: Base>(
    alloc: Global,
    ctx: &B::Ctx,
    number: u32,
    pc: u32,
    values: &[AbstractValue<B>],
) -> Result<AbstractValue<B>, NoMemory>
    ensures { IfOk result (λ r. abs r ≡ made_state number (B.algebra.words.constant ctx.now 32 pc) (parts (map abs values.now))) }
{
    let fields = with_counter(alloc, ctx, pc, values)?;
    let cases = one_case(alloc, 1, 0, fields)?;
    Ok(AbstractValue::Data { ty: number, cases })
}

/// The value of a counter, and these values behind it.
fn with_counter<B: Base>(
    alloc: Global,
    ctx: &B::Ctx,
    pc: u32,
    values: &[AbstractValue<B>],
) -> Result<Vec<AbstractValue<B>>, NoMemory>
    ensures { IfOk result (λ r. parts (map abs r.items) ≡ plain.part (plain.word 32 (B.algebra.words.constant ctx.now 32 pc)) (parts (map abs values.now))) }
{
    let room = Vec::with_capacity(alloc, values.len())?;
    let first = pushed(room, counter(alloc, ctx, pc))?;
    copied_behind(alloc, ctx, first, values)
}

/// The value of a counter.
fn counter<B: Base>(alloc: Global, ctx: &B::Ctx, pc: u32) -> Result<AbstractValue<B>, NoMemory>
    ensures { IfOk result (λ r. abs r ≡ plain.word 32 (B.algebra.words.constant ctx.now 32 pc)) }
{
    Ok(AbstractValue::Word {
        w: 32,
        x: B::constant(alloc, ctx, 32, u64::from(pc))?,
    })
}

/// The fields of a state value behind the counter; none of another value.
pub fn close_state<B: Base>(
    alloc: Global,
    ctx: &B::Ctx,
    value: &AbstractValue<B>,
) -> Result<Vec<AbstractValue<B>>, NoMemory>
    ensures { IfOk result (λ r. parts (map abs r.items) ≡ fields_of (abs value.now)) }
{
    copies(alloc, ctx, behind_counter(value))
}

/// The fields of a state value behind the counter; none of another value.
pub fn behind_counter<B: Base>(value: &AbstractValue<B>) -> &[AbstractValue<B>]
    ensures { parts (map abs result.now) ≡ fields_of (abs value.now) }
{
    match value {
        AbstractValue::Data { ty: _ty, cases } => of_one(cases),
        _ => &[],
    }
}

/// The fields of the one constructor but the first; none where there are more constructors.
fn of_one<B: Base>(cases: &Constructors<AbstractValue<B>>) -> &[AbstractValue<B>]
    ensures { parts (map abs result.now) ≡ behind_first (cases_of cases.now) }
{
    if cases.len() != 1 {
        return &[];
    }
    match cases.fields(0) {
        Some(fields) => behind_first(fields),
        None => &[],
    }
}

/// All but the first.
fn behind_first<B: Base>(values: &[AbstractValue<B>]) -> &[AbstractValue<B>]
    ensures { result.now ≡ drop 1 values.now }
{
    match values.split_first() {
        Some((_first, rest)) => rest,
        None => &[],
    }
}
