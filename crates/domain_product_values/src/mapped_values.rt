//! The part of each word and of each note of a value.

ghost use Rattle.std.specs.Prelude.{◌≡◌, get_or, map, option_map, IfOk, IsOkAnd, None};
ghost use Rattle.abstract_map_laws.specs.Maps.{Fits as MapFits};
ghost use Rattle.abstract_value_laws.specs.Abs as plain;
ghost use Rattle.abstract_value_laws.specs.Abs.{parts};
ghost use Rattle.abstract_value_laws.specs.Fits.{CaseFits, CasesFit, Fits, PartsFit};
ghost use Rattle.abstract_value.specs.Constructors.{spread};
ghost use Rattle.abstract_value.specs.View.{abs, case_of, cases_of};
ghost use Rattle.domain_product_laws.specs.Calls.{mapped_cases, mapped_map, mapped_parts, mapped_value};
ghost use Rattle.domain_product_values.specs.Cases.{mapped_case};

use crate::lists::{present, pushed_case, pushed_field};
use abstract_map::AbstractMap;
use abstract_value::{AbstractValue, Constructors};
use base_trait::Base;
use domain_product_maps::{ProductPart, mapped_map};
use std::alloc::{AllocError as NoMemory, Global};
use std::rc::Rc;

/// The part of a word, as a value.
fn mapped_word<P: ProductPart>(
    alloc: Global,
    ctx: &<P::To as Base>::Ctx,
    w: u32,
    x: &<P::From as Base>::Word,
) -> Result<AbstractValue<P::To>, NoMemory>
    ensures { IfOk result (λ r. abs r ≡ plain.word w (P.word_of x.now)) }
{
    Ok(AbstractValue::Word {
        w,
        x: P::word(alloc, ctx, x)?,
    })
}

/// The part of each cell of a map, as a value.
fn mapped_cells_of<P: ProductPart>(
    alloc: Global,
    ctx: &<P::To as Base>::Ctx,
    map: u32,
    m: &AbstractMap<P::From>,
) -> Result<AbstractValue<P::To>, NoMemory>
    requires fits { MapFits P.To.algebra ctx.now P.To.CAP (mapped_map P.word_of P.note_of m.now) }
    ensures { IfOk result (λ r. abs r ≡ plain.map map (mapped_map P.word_of P.note_of m.now)) }
{
    match mapped_map::<P>(alloc, ctx, m) {
        Ok(m) => Ok(AbstractValue::Map { map, m }),
        Err(error) => Err(error),
    }
}

/// The value with these constructors, if there are such.
fn mapped_data<B: Base>(
    ty: u32,
    cases: Result<Constructors<AbstractValue<B>>, NoMemory>,
) -> Result<AbstractValue<B>, NoMemory>
    ensures { IfOk result (λ r. IsOkAnd cases (λ cs. abs r ≡ plain.made ty (cases_of cs))) }
{
    match cases {
        Ok(cases) => Ok(AbstractValue::Data { ty, cases }),
        Err(error) => Err(error),
    }
}

/// The part of a value.
#[cycle(mapped)]
pub(crate) fn mapped_value<P: ProductPart>(
    alloc: Global,
    ctx: &<P::To as Base>::Ctx,
    x: &AbstractValue<P::From>,
) -> Result<AbstractValue<P::To>, NoMemory>
    requires fits { Fits P.To.algebra ctx.now P.To.CAP (mapped_value P.word_of P.note_of (abs x.now)) }
    ensures { IfOk result (λ r. abs r ≡ mapped_value P.word_of P.note_of (abs x.now)) }
{
    match x {
        AbstractValue::Flag(t) => Ok(AbstractValue::Flag(*t)),
        AbstractValue::Word { w, x } => mapped_word::<P>(alloc, ctx, *w, x),
        AbstractValue::Data { ty, cases } => mapped_data(*ty, mapped_cases::<P>(alloc, ctx, cases)),
        AbstractValue::Map { map, m } => mapped_cells_of::<P>(alloc, ctx, *map, m),
    }
}

#[cycle(mapped)]
fn mapped_cases<P: ProductPart>(
    alloc: Global,
    ctx: &<P::To as Base>::Ctx,
    xs: &Constructors<AbstractValue<P::From>>,
) -> Result<Constructors<AbstractValue<P::To>>, NoMemory>
    requires fits { CasesFit P.To.algebra ctx.now P.To.CAP (mapped_cases P.word_of P.note_of (cases_of xs.now)) }
    ensures { IfOk result (λ r. cases_of r ≡ mapped_cases P.word_of P.note_of (cases_of xs.now)) }
{
    let mut out = Constructors::none(alloc);
    for i in 0..xs.len() {
        out = pushed_case(alloc, out, mapped_case::<P>(alloc, ctx, xs, i))?;
    }
    Ok(out)
}

#[cycle(mapped)]
fn mapped_case<P: ProductPart>(
    alloc: Global,
    ctx: &<P::To as Base>::Ctx,
    xs: &Constructors<AbstractValue<P::From>>,
    i: usize,
) -> Result<Option<Rc<Vec<AbstractValue<P::To>>>>, NoMemory>
    requires fits { CaseFits P.To.algebra ctx.now P.To.CAP (mapped_case P.word_of P.note_of (case_of (get_or (spread xs.now) i None))) }
    ensures { IfOk result (λ r. case_of (option_map (λ f. f.value.items) r) ≡ mapped_case P.word_of P.note_of (case_of (get_or (spread xs.now) i None))) }
{
    match xs.fields(i) {
        Some(fields) => present(alloc, mapped_parts::<P>(alloc, ctx, fields)),
        None => Ok(None),
    }
}

#[cycle(mapped)]
pub(crate) fn mapped_parts<P: ProductPart>(
    alloc: Global,
    ctx: &<P::To as Base>::Ctx,
    xs: &[AbstractValue<P::From>],
) -> Result<Vec<AbstractValue<P::To>>, NoMemory>
    requires fits { PartsFit P.To.algebra ctx.now P.To.CAP (mapped_parts P.word_of P.note_of (parts (map abs xs.now))) }
    ensures { IfOk result (λ r. parts (map abs r.items) ≡ mapped_parts P.word_of P.note_of (parts (map abs xs.now))) }
{
    let mut out = Vec::new(alloc);
    for x in xs {
        out = pushed_field(out, mapped_value::<P>(alloc, ctx, x))?;
    }
    Ok(out)
}
