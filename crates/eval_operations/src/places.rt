//! What decisions ask of a value.

ghost use Rattle.std.specs.Prelude.{◌≡◌, [], ◌∷◌, Some, map, option_map, nat_lt, ◌^◌, All, IfOk, IfSome};
ghost use Rattle.word_operations.specs.Width.{IsWidth};
ghost use Rattle.spec_match_compiler.specs.Views.{bound};
ghost use Rattle.abstract_value_laws.specs.Fits.{Fits};
ghost use Rattle.abstract_value.specs.View.{abs, cases_if, cases_of};
ghost use Rattle.abstract_semantics.specs.Choices as of;

use super::items::item_at;
use abstract_value::{AbstractValue, Constructors, put};
use base_trait::{Base, Tri};
use spec_match_compiler::Path;
use std::alloc::{AllocError as NoMemory, Global};
use word_operations::WordComparison;

/// What stands at a place of a value; nothing where a constructor on the way is missing or has no such field.
pub fn abs_at<'a, B: Base>(x: &'a AbstractValue<B>, place: &Path) -> Option<&'a AbstractValue<B>>
    ensures { option_map (λ v. abs v.now) result ≡ of.abs_at place.now.steps.items (abs x.now) }
{
    abs_below(x, &place.steps)
}

/// What stands these steps below a value.
fn abs_below<'a, B: Base>(
    x: &'a AbstractValue<B>,
    steps: &[(u32, u32)],
) -> Option<&'a AbstractValue<B>>
    ensures { option_map (λ v. abs v.now) result ≡ of.abs_at steps.now (abs x.now) }
{
    let mut there = x;
    for step in steps {
        there = field_of(there, step)?;
    }
    Some(there)
}

/// A field of a constructor of a value.
fn field_of<'a, B: Base>(x: &'a AbstractValue<B>, step: &(u32, u32)) -> Option<&'a AbstractValue<B>>
    ensures { option_map (λ v. abs v.now) result ≡ of.abs_at (step.now ∷ []) (abs x.now) }
{
    match x {
        AbstractValue::Data { ty: _ty, cases } => field_in(cases, step.0, step.1),
        _ => None,
    }
}

/// A field of one of the constructors.
fn field_in<B: Base>(
    cases: &Constructors<AbstractValue<B>>,
    case: u32,
    field: u32,
) -> Option<&AbstractValue<B>>
    ensures { option_map (λ v. abs v.now) result ≡ of.abs_in [] case field (cases_of cases.now) }
{
    match cases.fields(case as usize) {
        Some(fields) => item_at(fields, field),
        None => None,
    }
}

/// Copies of what the variables of a row name, where all of it is there.
pub fn abs_named<B: Base>(
    alloc: Global,
    ctx: &B::Ctx,
    x: &AbstractValue<B>,
    binds: &[(u32, Path)],
) -> Result<Option<Vec<AbstractValue<B>>>, NoMemory>
    requires fits { Fits B.algebra ctx.now B.CAP (abs x.now) }
    ensures value { IfOk result (λ r. option_map (λ vs. map abs vs.items) r ≡ of.abs_named (abs x.now) (map bound binds.now)) }
    ensures fits { IfOk result (λ r. IfSome r (λ vs. All (λ v. Fits B.algebra ctx.now B.CAP (abs v)) vs.items)) }
{
    let mut named = Vec::with_capacity(alloc, binds.len())?;
    for bind in binds {
        match abs_at(x, &bind.1) {
            Some(v) => put(&mut named, v.copy(alloc, ctx)?)?,
            None => return Ok(None),
        }
    }
    Ok(Some(named))
}

/// The constructors of what stands at a place; nothing where no constructor value does.
pub fn cases_there<'a, B: Base>(
    x: &'a AbstractValue<B>,
    place: &Path,
) -> Option<&'a Constructors<AbstractValue<B>>>
    ensures { cases_if (option_map (λ cs. cs.now) result) ≡ of.cases_there (of.abs_at place.now.steps.items (abs x.now)) }
{
    match abs_at(x, place) {
        Some(v) => constructors_of(v),
        None => None,
    }
}

/// The constructors of a value.
fn constructors_of<B: Base>(x: &AbstractValue<B>) -> Option<&Constructors<AbstractValue<B>>>
    ensures { cases_if (option_map (λ cs. cs.now) result) ≡ of.cases_there (Some (abs x.now)) }
{
    match x {
        AbstractValue::Data { ty: _ty, cases } => Some(cases),
        _ => None,
    }
}

/// The truth values that a value may be; none where it is no flag.
pub fn flag_of<B: Base>(x: &AbstractValue<B>) -> Tri
    ensures { result ≡ of.flag_there (Some (abs x.now)) }
{
    match x {
        AbstractValue::Flag(t) => *t,
        _ => neither(),
    }
}

/// The truth values that what stands at a place may be.
pub fn flag_there<B: Base>(x: &AbstractValue<B>, place: &Path) -> Tri
    ensures { result ≡ of.flag_there (of.abs_at place.now.steps.items (abs x.now)) }
{
    match abs_at(x, place) {
        Some(v) => flag_of(v),
        None => neither(),
    }
}

/// Whether the word at a place may be, and may not be, a number of its width.
pub fn word_there<B: Base>(
    alloc: Global,
    ctx: &B::Ctx,
    x: &AbstractValue<B>,
    place: &Path,
    n: u64,
) -> Result<Tri, NoMemory>
    requires fits { Fits B.algebra ctx.now B.CAP (abs x.now) }
    ensures { IfOk result (λ r. r ≡ of.word_there B.algebra ctx.now (of.abs_at place.now.steps.items (abs x.now)) n) }
{
    match abs_at(x, place) {
        Some(v) => word_of(alloc, ctx, v, n),
        None => Ok(neither()),
    }
}

/// Whether a word may be, and may not be, a number of its width.
fn word_of<B: Base>(
    alloc: Global,
    ctx: &B::Ctx,
    x: &AbstractValue<B>,
    n: u64,
) -> Result<Tri, NoMemory>
    requires fits { Fits B.algebra ctx.now B.CAP (abs x.now) }
    ensures { IfOk result (λ r. r ≡ of.word_there B.algebra ctx.now (Some (abs x.now)) n) }
{
    match x {
        AbstractValue::Word { w, x: word } if is_number(*w, n) => {
            let number = B::constant(alloc, ctx, *w, n)?;
            Ok(B::cmp(ctx, WordComparison::Eq, *w, word, &number))
        }
        _ => Ok(neither()),
    }
}

/// Whether a number is one of w bits.
fn is_number(w: u32, n: u64) -> bool
    requires { IsWidth w }
    ensures { result ≡ nat_lt n (2 ^ w) }
{
    w == 64 || n < 1 << w
}

/// No truth value.
fn neither() -> Tri
    ensures { result ≡ of.neither }
{
    Tri {
        may_true: false,
        may_false: false,
    }
}
