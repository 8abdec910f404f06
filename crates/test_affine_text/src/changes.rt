//! State values with changes.

ghost use Rattle.std.specs.Prelude.{◌≡◌, ◌∷◌, map, All, IfOk, IsOkAnd, set, true};
ghost use Rattle.spec_ir.specs.Views.{specification};
ghost use Rattle.abstract_map_laws.specs.Maps.{Fits as MapFits};
ghost use Rattle.abstract_value_laws.specs.Abs.{parts};
ghost use Rattle.abstract_value_laws.specs.Fits.{CasesFit, Fits, PartsFit};
ghost use Rattle.domain_laws.specs.declared.field.Field.TheVariants.{Word as WordField};
ghost use Rattle.domain_laws.specs.States.{has_states, state_type};
ghost use Rattle.domain_laws.specs.Values.{IsStateValue};
ghost use Rattle.domain_affine_base.specs.Meaning.{affine};
ghost use Rattle.domain_affine_laws.specs.Calls.{cell_count};
ghost use Rattle.domain_affine_laws.specs.Tracked.{tracked_cells};
ghost use Rattle.abstract_value.specs.View.{abs, cases_of};
ghost use Rattle.test_affine_text.specs.Settings.{IsSetting};

use crate::forms::are_of;
use crate::setting::Setting;
use crate::words::{place, word_in};
use abstract_map::{AbstractMap, KeySet};
use abstract_value::{AbstractValue, Constructors, one_case};
use base_trait::Base;
use domain_affine_base::{Affine, Tracked, Word};
use domain_cells::{fields_of, state_number};
use domain_laws::Field;
use domain_trait::Domain;
use semantics_values::KeyAt;
use spec_ir::Spec;
use std::alloc::{AllocError as NoMemory, Global};
use support_modular_rows::Rows;
use test_case_lines::{Read, Unread};

/// The values of the fields of a state value.
fn values_of(
    alloc: Global,
    ctx: &Tracked,
    state: &AbstractValue<Affine>,
) -> Result<Vec<AbstractValue<Affine>>, NoMemory>
    requires { Fits affine ctx.now 256 (abs state.now) }
    ensures { IfOk result (λ vs. All (λ v. Fits affine ctx.now 256 (abs v)) vs.items) }
{
    match state {
        AbstractValue::Data { ty: _ty, cases } => first_fields(alloc, ctx, cases),
        _ => Ok(Vec::new(alloc)),
    }
}

/// Copies of the values of the fields of the first constructor.
fn first_fields(
    alloc: Global,
    ctx: &Tracked,
    cases: &Constructors<AbstractValue<Affine>>,
) -> Result<Vec<AbstractValue<Affine>>, NoMemory>
    requires { CasesFit affine ctx.now 256 (cases_of cases.now) }
    ensures { IfOk result (λ vs. All (λ v. Fits affine ctx.now 256 (abs v)) vs.items) }
{
    match cases.fields(0) {
        Some(fields) => copies(alloc, ctx, fields),
        None => Ok(Vec::new(alloc)),
    }
}

/// Copies of values.
fn copies(
    alloc: Global,
    ctx: &Tracked,
    values: &[AbstractValue<Affine>],
) -> Result<Vec<AbstractValue<Affine>>, NoMemory>
    requires { PartsFit affine ctx.now 256 (parts (map abs values.now)) }
    ensures { IfOk result (λ vs. All (λ v. Fits affine ctx.now 256 (abs v)) vs.items) }
{
    let mut out = Vec::with_capacity(alloc, values.len())?;
    for value in values {
        out.push(value.copy(alloc, ctx)?)?;
    }
    Ok(out)
}

/// A map of words of 32 bits with a word at a key.
fn with_cell(
    alloc: Global,
    ctx: &Tracked,
    m: &AbstractMap<Affine>,
    k: u64,
    x: &Word,
) -> Read<AbstractMap<Affine>>
    requires map { MapFits affine ctx.now 256 m.now }
    requires width { m.now.width ≡ 32 }
    requires word { affine.words.fits ctx.now 32 x.now }
    ensures { IfOk result (λ r. MapFits affine ctx.now 256 r) }
{
    if k >= 1 << 32 {
        return Err(Unread::No);
    }
    Ok(m.update(alloc, ctx, &KeySet::One(k), x, &())?)
}

/// A value of words of 32 bits with a word in its place, or in that of a key.
fn with_word(
    alloc: Global,
    ctx: &Tracked,
    value: &AbstractValue<Affine>,
    key: KeyAt,
    x: &Word,
) -> Read<AbstractValue<Affine>>
    requires value { Fits affine ctx.now 256 (abs value.now) }
    requires word { affine.words.fits ctx.now 32 x.now }
    ensures { IfOk result (λ v. Fits affine ctx.now 256 (abs v)) }
{
    match (value, key) {
        (AbstractValue::Word { w, x: _x }, KeyAt::Whole) if *w == 32 => Ok(AbstractValue::Word {
            w: 32,
            x: Affine::copy(alloc, ctx, x)?,
        }),
        (AbstractValue::Map { map, m }, KeyAt::At(k)) if m.width() == 32 => Ok(
            AbstractValue::Map {
                map: *map,
                m: with_cell(alloc, ctx, m, k, x)?,
            },
        ),
        _ => Err(Unread::No),
    }
}

/// The number of the field of a change, and its value then.
fn change_of(
    alloc: Global,
    ctx: &Tracked,
    values: &[AbstractValue<Affine>],
    text: &str,
) -> Read<(u32, AbstractValue<Affine>)>
    requires { All (λ v. Fits affine ctx.now 256 (abs v)) values.now }
    ensures { IfOk result (λ c. Fits affine ctx.now 256 (abs c.1)) }
{
    let Some((cell, by)) = text.split_once(" := ") else {
        return Err(Unread::No);
    };
    let Some((field, key)) = place(cell) else {
        return Err(Unread::No);
    };
    let Some(old) = values.get(field as usize) else {
        return Err(Unread::No);
    };
    let x = word_in(alloc, ctx, values, by)?;
    match with_word(alloc, ctx, old, key, &x) {
        Ok(new) => Ok((field, new)),
        Err(error) => Err(error),
    }
}

/// The values with another at a place, if there is a change.
fn with_change<T: Drop>(mut values: Vec<T>, change: Read<(u32, T)>) -> Read<Vec<T>>
    ensures { IfOk result (λ r. IsOkAnd change (λ c. r.items ≡ set values.items c.0 c.1)) }
{
    let (n, new) = change?;
    if (n as usize) < values.len() {
        values[n as usize] = new;
    }
    Ok(values)
}

/// The values behind all changes, each on what the one before it leaves.
fn changed(
    alloc: Global,
    ctx: &Tracked,
    values: Vec<AbstractValue<Affine>>,
    text: &str,
) -> Read<Vec<AbstractValue<Affine>>>
    requires { All (λ v. Fits affine ctx.now 256 (abs v)) values.items }
    ensures { IfOk result (λ vs. All (λ v. Fits affine ctx.now 256 (abs v)) vs.items) }
{
    let mut values = values;
    for change in text.split(';') {
        let next = change_of(alloc, ctx, &values, change);
        values = with_change(values, next)?;
    }
    Ok(values)
}

/// The types of all fields of a state, the counter first.
fn all_fields(alloc: Global, spec: &Spec) -> Result<Vec<Field>, NoMemory>
    requires states { has_states (specification spec.now) ≡ true }
    ensures { IfOk result (λ r. r.items ≡ WordField 32 ∷ (state_type (specification spec.now)).fields) }
{
    let mut fields = fields_of(alloc, spec)?;
    fields.insert(0, Field::Word { w: 32 })?;
    Ok(fields)
}

/// The state value of these values of its fields.
fn state_of(
    alloc: Global,
    setting: &Setting<'_>,
    fields: &[Field],
    values: Vec<AbstractValue<Affine>>,
) -> Read<AbstractValue<Affine>>
    requires fields { fields.now ≡ WordField 32 ∷ (state_type (specification setting.now.spec.now)).fields }
    requires values { All (λ v. Fits affine setting.now.ctx.now 256 (abs v)) values.items }
    ensures { IfOk result (λ v. IsStateValue affine setting.now.ctx.now 256 (state_type (specification setting.now.spec.now)) (abs v)) }
{
    if !are_of(fields, &values) {
        return Err(Unread::No);
    }
    let cases = one_case(alloc, 1, 0, values)?;
    Ok(AbstractValue::Data {
        ty: state_number(setting.spec),
        cases,
    })
}

/// The values of the fields of the state value of an element at 1000.
fn opened(
    alloc: Global,
    setting: &Setting<'_>,
    x: &Rows,
) -> Result<Vec<AbstractValue<Affine>>, NoMemory>
    requires ready { IsSetting setting.now }
    requires fits { x.now.k ≡ cell_count setting.now.domain.now }
    ensures { IfOk result (λ vs. All (λ v. Fits affine setting.now.ctx.now 256 (abs v)) vs.items) }
{
    let state = setting.domain.open(alloc, setting.spec, x, 4096)?;
    values_of(alloc, setting.ctx, &state)
}

/// The state value of an element at 1000 with changes.
pub fn changed_state(
    alloc: Global,
    setting: &Setting<'_>,
    before: &Rows,
    text: &str,
) -> Read<AbstractValue<Affine>>
    requires ready { IsSetting setting.now }
    requires fits { before.now.k ≡ cell_count setting.now.domain.now }
    ensures { IfOk result (λ v. IsStateValue affine (tracked_cells setting.now.domain.now) 256 (state_type (specification setting.now.spec.now)) (abs v)) }
{
    let fields = all_fields(alloc, setting.spec)?;
    let values = opened(alloc, setting, before)?;
    match changed(alloc, setting.ctx, values, text) {
        Ok(values) => state_of(alloc, setting, &fields, values),
        Err(error) => Err(error),
    }
}
