//! Values of texts, by their types.

ghost use Rattle.std.specs.Prelude.{◌≡◌, ◌++◌, ◌∷◌, [], All, IfOk, IfSome, IsOkAnd};
ghost use Rattle.abstract_value_laws.specs.Fits.{Fits};
ghost use Rattle.abstract_value.specs.View.{abs};

use crate::maps::map;
use abstract_value::AbstractValue;
use base_trait::{Base, Tri};
use eval_operations::make_value;
use spec_ir::{Case, Spec, Ty};
use std::alloc::{AllocError as NoMemory, Global};
use syntax_lexer::Text;
use test_case_lines::{Read, Unread, both, word};

/// The values with one more behind them, if that is read.
pub fn pushed<T: Drop>(values: Vec<T>, next: Read<T>) -> Read<Vec<T>>
    ensures { IfOk result (λ r. IsOkAnd next (λ x. r.items ≡ values.items ++ x ∷ [])) }
{
    let (mut values, x) = both(values, next)?;
    match values.push(x) {
        Ok(()) => Ok(values),
        Err(_full) => Err(Unread::NoMemory),
    }
}

/// The truth values of a flag.
fn flag(text: &str) -> Read<Tri> {
    let (may_true, may_false) = match text {
        "true" => (true, false),
        "false" => (false, true),
        "true or false" => (true, true),
        "neither" => (false, false),
        _ => return Err(Unread::No),
    };
    Ok(Tri {
        may_true,
        may_false,
    })
}

/// The map of a map type, in brackets.
fn map_value<B: Base>(
    alloc: Global,
    ctx: &B::Ctx,
    spec: &Spec,
    number: u32,
    text: &str,
) -> Read<AbstractValue<B>>
    ensures { IfOk result (λ v. Fits B.algebra ctx.now B.CAP (abs v)) }
{
    let width = match spec.maps.get(number as usize) {
        Some(ty) => ty.width,
        None => 0,
    };
    match text.strip_prefix("[").and_then(|t| t.strip_suffix("]")) {
        Some(cells) if 1 <= width && width <= 64 => {
            let m = map(alloc, ctx, width, cells)?;
            Ok(AbstractValue::Map { map: number, m })
        }
        _ => Err(Unread::No),
    }
}

/// A value that is no constructor's.
fn leaf<B: Base>(
    alloc: Global,
    ctx: &B::Ctx,
    spec: &Spec,
    ty: Ty,
    text: &str,
) -> Read<AbstractValue<B>>
    ensures { IfOk result (λ v. Fits B.algebra ctx.now B.CAP (abs v)) }
{
    match ty {
        Ty::Bool => Ok(AbstractValue::Flag(flag(text)?)),
        Ty::Word(w) if 1 <= w && w <= 64 => {
            let x = word::<B>(alloc, ctx, w, text)?;
            Ok(AbstractValue::Word { w, x })
        }
        Ty::Map(number) => map_value(alloc, ctx, spec, number, text),
        _ => Err(Unread::No),
    }
}

/// The value of a constructor's field at a place.
fn field<B: Base>(
    alloc: Global,
    ctx: &B::Ctx,
    spec: &Spec,
    types: &[(Text, Ty)],
    place: usize,
    text: &str,
) -> Read<AbstractValue<B>>
    ensures { IfOk result (λ v. Fits B.algebra ctx.now B.CAP (abs v)) }
{
    match types.get(place) {
        Some((_name, ty)) => leaf(alloc, ctx, spec, *ty, text),
        None => Err(Unread::No),
    }
}

/// The values of a constructor's fields, if any, with a parenthesis behind them.
fn fields<B: Base>(
    alloc: Global,
    ctx: &B::Ctx,
    spec: &Spec,
    types: &[(Text, Ty)],
    text: &str,
) -> Read<Vec<AbstractValue<B>>>
    ensures { IfOk result (λ vs. All (λ v. Fits B.algebra ctx.now B.CAP (abs v)) vs.items) }
{
    let mut out = Vec::new(alloc);
    let Some(text) = text.strip_suffix(")") else {
        return Ok(out);
    };
    for part in text.split(", ") {
        let next = field(alloc, ctx, spec, types, out.len(), part);
        out = pushed(out, next)?;
    }
    Ok(out)
}

/// The constructor of a name, and its number.
fn case_named<'a>(cases: &'a [Case], name: &str) -> Option<(u32, &'a Case)> {
    for (number, case) in cases.iter().enumerate() {
        if case.name.as_str() == name {
            return Some((u32::try_from(number).ok()?, case));
        }
    }
    None
}

/// The value that one constructor makes: `Dot`, or `Box({2}, {3})`.
fn made<B: Base>(
    alloc: Global,
    ctx: &B::Ctx,
    spec: &Spec,
    ty: u32,
    text: &str,
) -> Read<AbstractValue<B>>
    ensures { IfOk result (λ v. Fits B.algebra ctx.now B.CAP (abs v)) }
{
    let (name, inner) = text.split_once("(").unwrap_or((text, ""));
    let Some(data) = spec.datas.get(ty as usize) else {
        return Err(Unread::No);
    };
    let Some((number, case)) = case_named(&data.cases, name) else {
        return Err(Unread::No);
    };
    let values = fields(alloc, ctx, spec, &case.fields, inner)?;
    match make_value(alloc, ctx, spec, ty, number, values)? {
        Some(value) => Ok(value),
        None => Err(Unread::No),
    }
}

/// The join of the values of the constructors that are present, with ` + ` between.
fn data<B: Base>(
    alloc: Global,
    ctx: &B::Ctx,
    spec: &Spec,
    ty: u32,
    text: &str,
) -> Read<AbstractValue<B>>
    ensures { IfOk result (λ v. Fits B.algebra ctx.now B.CAP (abs v)) }
{
    let mut parts = text.split(" + ");
    let mut all = made(alloc, ctx, spec, ty, parts.next().unwrap_or(""))?;
    for part in parts {
        let (before, more) = both(all, made(alloc, ctx, spec, ty, part))?;
        all = joined(alloc, ctx, before, more)?;
    }
    Ok(all)
}

/// The join of two values, which are let go.
fn joined<B: Base>(
    alloc: Global,
    ctx: &B::Ctx,
    x: AbstractValue<B>,
    y: AbstractValue<B>,
) -> Result<AbstractValue<B>, NoMemory>
    requires left { Fits B.algebra ctx.now B.CAP (abs x) }
    requires right { Fits B.algebra ctx.now B.CAP (abs y) }
    ensures { IfOk result (λ v. Fits B.algebra ctx.now B.CAP (abs v)) }
{
    x.join(alloc, ctx, &y)
}

/// The value of a type that a text writes.
pub fn value<B: Base>(
    alloc: Global,
    ctx: &B::Ctx,
    spec: &Spec,
    ty: Ty,
    text: &str,
) -> Read<AbstractValue<B>>
    ensures { IfOk result (λ v. Fits B.algebra ctx.now B.CAP (abs v)) }
{
    match ty {
        Ty::Data(number) => data(alloc, ctx, spec, number, text),
        _ => leaf(alloc, ctx, spec, ty, text),
    }
}
