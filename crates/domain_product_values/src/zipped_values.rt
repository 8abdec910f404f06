//! Values side by side.

ghost use Rattle.std.specs.Prelude.{◌≡◌, ◌++◌, ◌∷◌, [], get_or, map, max, option_map, IfOk, IsOkAnd, None};
ghost use Rattle.base_product.specs.Meaning.{both_allow, paired};
ghost use Rattle.abstract_map_laws.specs.Maps.{Fits as MapFits};
ghost use Rattle.abstract_value_laws.specs.Abs as plain;
ghost use Rattle.abstract_value_laws.specs.Abs.{parts};
ghost use Rattle.abstract_value_laws.specs.Fits.{CaseFits, CasesFit, Fits, PartsFit};
ghost use Rattle.abstract_value.specs.Constructors.{AreWithin, spread};
ghost use Rattle.abstract_value.specs.View.{abs, case_of, cases_of};
ghost use Rattle.domain_product_laws.specs.Calls.{nothing, zip_cases, zip_parts, zip_value};
ghost use Rattle.domain_product_laws.proofs.Values.{CasesMeet, Meet, PartsMeet};
ghost use Rattle.domain_product_values.specs.Cases.{CaseMeets, zip_case};

use crate::lists::{present, pushed_case, pushed_field};
use abstract_map::AbstractMap;
use abstract_value::{AbstractValue, Constructors};
use base_product::{Pair, Paired};
use base_trait::{Base, Tri};
use domain_product_maps::zip_map;
use std::alloc::{AllocError as NoMemory, Global};
use std::rc::Rc;

/// The constructors of a value over two bases.
type PairCases<A, B> = Constructors<AbstractValue<Paired<A, B>>>;

/// The fields of one of them, where it is present.
type PairFields<A, B> = Option<Rc<Vec<AbstractValue<Paired<A, B>>>>>;

/// Two values side by side: the value describes what both describe.
///
/// A flag may be what both allow, a constructor is there where both have it, and a map lists the keys of either. Values of
/// two forms, as a flag and a word, give the value that describes nothing.
pub fn zip<A: Base, B: Base>(
    alloc: Global,
    ctx: &Pair<A::Ctx, B::Ctx>,
    x: &AbstractValue<A>,
    y: &AbstractValue<B>,
) -> Result<AbstractValue<Paired<A, B>>, NoMemory>
    requires left { Fits A.algebra ctx.now.0 A.CAP (abs x.now) }
    requires right { Fits B.algebra ctx.now.1 B.CAP (abs y.now) }
    requires widths { Meet (abs x.now) (abs y.now) }
    ensures value { IfOk result (λ r. abs r ≡ zip_value A.algebra B.algebra ctx.now (max A.CAP B.CAP) (abs x.now) (abs y.now)) }
    ensures fits { IfOk result (λ r. Fits (paired A.algebra B.algebra) ctx.now (max A.CAP B.CAP) (abs r)) }
{
    zip_value(alloc, ctx, x, y)
}

/// The values of two lists side by side, as many as both have.
pub fn zip_values<A: Base, B: Base>(
    alloc: Global,
    ctx: &Pair<A::Ctx, B::Ctx>,
    xs: &[AbstractValue<A>],
    ys: &[AbstractValue<B>],
) -> Result<Vec<AbstractValue<Paired<A, B>>>, NoMemory>
    requires left { PartsFit A.algebra ctx.now.0 A.CAP (parts (map abs xs.now)) }
    requires right { PartsFit B.algebra ctx.now.1 B.CAP (parts (map abs ys.now)) }
    requires widths { PartsMeet (parts (map abs xs.now)) (parts (map abs ys.now)) }
    ensures value { IfOk result (λ r. parts (map abs r.items) ≡ zip_parts A.algebra B.algebra ctx.now (max A.CAP B.CAP) (parts (map abs xs.now)) (parts (map abs ys.now))) }
{
    zip_parts(alloc, ctx, xs, ys)
}

/// What both allow.
fn both_allow(t: Tri, u: Tri) -> Tri
    ensures { result ≡ both_allow t u }
{
    Tri {
        may_true: t.may_true && u.may_true,
        may_false: t.may_false && u.may_false,
    }
}

/// The value that describes nothing.
fn nothing_value<A: Base, B: Base>() -> AbstractValue<Paired<A, B>>
    ensures { abs result ≡ nothing }
{
    AbstractValue::Flag(Tri {
        may_true: false,
        may_false: false,
    })
}

/// A flag and a value side by side.
fn zip_flag<A: Base, B: Base>(t: Tri, y: &AbstractValue<B>) -> AbstractValue<Paired<A, B>>
    ensures { (c : A.Ctx × B.Ctx) → abs result ≡ zip_value A.algebra B.algebra c (max A.CAP B.CAP) (plain.flag t) (abs y.now) }
{
    match y {
        AbstractValue::Flag(u) => AbstractValue::Flag(both_allow(t, *u)),
        _ => nothing_value::<A, B>(),
    }
}

/// A word and a value side by side.
fn zip_word<A: Base, B: Base>(
    alloc: Global,
    ctx: &Pair<A::Ctx, B::Ctx>,
    w: u32,
    x: &A::Word,
    y: &AbstractValue<B>,
) -> Result<AbstractValue<Paired<A, B>>, NoMemory>
    ensures { IfOk result (λ r. abs r ≡ zip_value A.algebra B.algebra ctx.now (max A.CAP B.CAP) (plain.word w x.now) (abs y.now)) }
{
    match y {
        AbstractValue::Word { w: _w, x: other } => Ok(AbstractValue::Word {
            w,
            x: Pair(A::copy(alloc, &ctx.0, x)?, B::copy(alloc, &ctx.1, other)?),
        }),
        _ => Ok(nothing_value::<A, B>()),
    }
}

/// A map and a value side by side.
fn zip_map_and<A: Base, B: Base>(
    alloc: Global,
    ctx: &Pair<A::Ctx, B::Ctx>,
    map: u32,
    m: &AbstractMap<A>,
    y: &AbstractValue<B>,
) -> Result<AbstractValue<Paired<A, B>>, NoMemory>
    requires left { MapFits A.algebra ctx.now.0 A.CAP m.now }
    requires right { Fits B.algebra ctx.now.1 B.CAP (abs y.now) }
    requires widths { Meet (plain.map map m.now) (abs y.now) }
    ensures { IfOk result (λ r. abs r ≡ zip_value A.algebra B.algebra ctx.now (max A.CAP B.CAP) (plain.map map m.now) (abs y.now)) }
{
    match y {
        AbstractValue::Map {
            map: _map,
            m: other,
        } => match zip_map(alloc, ctx, m, other) {
            Ok(m) => Ok(AbstractValue::Map { map, m }),
            Err(error) => Err(error),
        },
        _ => Ok(nothing_value::<A, B>()),
    }
}

/// Fields side by side with one more behind them, if there is one.
fn with_field<A: Base, B: Base>(
    fields: Vec<AbstractValue<Paired<A, B>>>,
    next: Result<AbstractValue<Paired<A, B>>, NoMemory>,
) -> Result<Vec<AbstractValue<Paired<A, B>>>, NoMemory>
    ensures { IfOk result (λ r. IsOkAnd next (λ x. r.items ≡ fields.items ++ x ∷ [])) }
{
    pushed_field(fields, next)
}

/// Constructors side by side with one more behind them, if there is one.
fn with_case<A: Base, B: Base>(
    alloc: Global,
    cases: PairCases<A, B>,
    next: Result<PairFields<A, B>, NoMemory>,
) -> Result<PairCases<A, B>, NoMemory>
    requires { AreWithin cases }
    ensures value { IfOk result (λ r. IsOkAnd next (λ x. spread r ≡ spread cases ++ option_map (λ f. f.value.items) x ∷ [])) }
    ensures within { IfOk result AreWithin }
{
    pushed_case(alloc, cases, next)
}

/// The value with these constructors, if there are such.
fn zip_data<A: Base, B: Base>(
    ty: u32,
    cases: Result<PairCases<A, B>, NoMemory>,
) -> Result<AbstractValue<Paired<A, B>>, NoMemory>
    ensures { IfOk result (λ r. IsOkAnd cases (λ cs. abs r ≡ plain.made ty (cases_of cs))) }
{
    match cases {
        Ok(cases) => Ok(AbstractValue::Data { ty, cases }),
        Err(error) => Err(error),
    }
}

#[cycle(zip)]
fn zip_value<A: Base, B: Base>(
    alloc: Global,
    ctx: &Pair<A::Ctx, B::Ctx>,
    x: &AbstractValue<A>,
    y: &AbstractValue<B>,
) -> Result<AbstractValue<Paired<A, B>>, NoMemory>
    requires left { Fits A.algebra ctx.now.0 A.CAP (abs x.now) }
    requires right { Fits B.algebra ctx.now.1 B.CAP (abs y.now) }
    requires widths { Meet (abs x.now) (abs y.now) }
    ensures { IfOk result (λ r. abs r ≡ zip_value A.algebra B.algebra ctx.now (max A.CAP B.CAP) (abs x.now) (abs y.now)) }
{
    match x {
        AbstractValue::Flag(t) => Ok(zip_flag(*t, y)),
        AbstractValue::Word { w, x: word } => zip_word(alloc, ctx, *w, word, y),
        AbstractValue::Data { ty, cases } => match y {
            AbstractValue::Data {
                ty: _ty,
                cases: others,
            } => zip_data(*ty, zip_cases(alloc, ctx, cases, others)),
            _ => Ok(nothing_value::<A, B>()),
        },
        AbstractValue::Map { map, m } => zip_map_and(alloc, ctx, *map, m, y),
    }
}

#[cycle(zip)]
fn zip_cases<A: Base, B: Base>(
    alloc: Global,
    ctx: &Pair<A::Ctx, B::Ctx>,
    xs: &Constructors<AbstractValue<A>>,
    ys: &Constructors<AbstractValue<B>>,
) -> Result<PairCases<A, B>, NoMemory>
    requires left { CasesFit A.algebra ctx.now.0 A.CAP (cases_of xs.now) }
    requires right { CasesFit B.algebra ctx.now.1 B.CAP (cases_of ys.now) }
    requires widths { CasesMeet (cases_of xs.now) (cases_of ys.now) }
    ensures { IfOk result (λ r. cases_of r ≡ zip_cases A.algebra B.algebra ctx.now (max A.CAP B.CAP) (cases_of xs.now) (cases_of ys.now)) }
{
    let mut out = Constructors::none(alloc);
    for i in 0..xs.len().min(ys.len()) {
        out = with_case(alloc, out, zip_case(alloc, ctx, xs, ys, i))?;
    }
    Ok(out)
}

#[cycle(zip)]
fn zip_case<A: Base, B: Base>(
    alloc: Global,
    ctx: &Pair<A::Ctx, B::Ctx>,
    xs: &Constructors<AbstractValue<A>>,
    ys: &Constructors<AbstractValue<B>>,
    i: usize,
) -> Result<PairFields<A, B>, NoMemory>
    requires left { CaseFits A.algebra ctx.now.0 A.CAP (case_of (get_or (spread xs.now) i None)) }
    requires right { CaseFits B.algebra ctx.now.1 B.CAP (case_of (get_or (spread ys.now) i None)) }
    requires widths { CaseMeets (case_of (get_or (spread xs.now) i None)) (case_of (get_or (spread ys.now) i None)) }
    ensures { IfOk result (λ r. case_of (option_map (λ f. f.value.items) r) ≡ zip_case A.algebra B.algebra ctx.now (max A.CAP B.CAP) (case_of (get_or (spread xs.now) i None)) (case_of (get_or (spread ys.now) i None))) }
{
    match (xs.fields(i), ys.fields(i)) {
        (Some(x), Some(y)) => present(alloc, zip_parts(alloc, ctx, x, y)),
        _ => Ok(None),
    }
}

#[cycle(zip)]
fn zip_parts<A: Base, B: Base>(
    alloc: Global,
    ctx: &Pair<A::Ctx, B::Ctx>,
    xs: &[AbstractValue<A>],
    ys: &[AbstractValue<B>],
) -> Result<Vec<AbstractValue<Paired<A, B>>>, NoMemory>
    requires left { PartsFit A.algebra ctx.now.0 A.CAP (parts (map abs xs.now)) }
    requires right { PartsFit B.algebra ctx.now.1 B.CAP (parts (map abs ys.now)) }
    requires widths { PartsMeet (parts (map abs xs.now)) (parts (map abs ys.now)) }
    ensures { IfOk result (λ r. parts (map abs r.items) ≡ zip_parts A.algebra B.algebra ctx.now (max A.CAP B.CAP) (parts (map abs xs.now)) (parts (map abs ys.now))) }
{
    let mut out = Vec::new(alloc);
    for i in 0..xs.len().min(ys.len()) {
        out = with_field(out, zip_value(alloc, ctx, &xs[i], &ys[i]))?;
    }
    Ok(out)
}
