//! The value of a concrete one.

ghost use Rattle.std.specs.Prelude.{◌≡◌, ◌<◌, ◌^◌, IfOk, map, slice_get};
ghost use Rattle.word_operations.specs.Width.{IsWidth};
ghost use Rattle.abstract_map_laws.specs.Cells.{CellFits};
ghost use Rattle.abstract_map_laws.specs.Maps.{Fits};
ghost use Rattle.spec_ir.specs.Views.{specification};
ghost use Rattle.semantics_values.specs.Types.{environment_of};
ghost use Rattle.semantics_values.specs.Values.{vals};
ghost use Rattle.semantics_values.specs.Views.{val};
ghost use Rattle.abstract_value_laws.specs.Abs.{parts};
ghost use Rattle.abstract_value_laws.specs.OfValues as of;
ghost use Rattle.abstract_value_laws.specs.OfValues.{MapFits, ValueFits, ValuesFit, case_count, cells_of, map_at, note_of, one_case};
ghost use Rattle.abstract_value_laws.specs.TypeShapes.{width_of};
ghost use Rattle.abstract_value.specs.View.{abs, cases_of};

use super::constructors::Constructors;
use super::value::AbstractValue;
use abstract_map::AbstractMap;
use abstract_map_laws::AbstractCell;
use base_trait::{Base, Stamp, Tri};
use semantics_values::{MapValue, Value};
use spec_ir::Spec;
use std::alloc::{AllocError as NoMemory, Global};
use support_lists::pushed;

/// The value that describes a concrete one.
#[cycle(of_value)]
pub(crate) fn of_value<B: Base>(
    alloc: Global,
    ctx: &B::Ctx,
    spec: &Spec,
    v: &Value,
) -> Result<AbstractValue<B>, NoMemory>
    requires value { ValueFits (environment_of (specification spec.now)) (val v.now) }
    ensures { IfOk result (λ r. abs r ≡ of.of_value B.algebra ctx.now B.CAP (environment_of (specification spec.now)) (val v.now)) }
{
    match v {
        Value::Flag(b) => Ok(AbstractValue::Flag(Tri {
            may_true: *b,
            may_false: !*b,
        })),
        Value::Word { w, v } => Ok(AbstractValue::Word {
            w: *w,
            x: B::constant(alloc, ctx, *w, *v)?,
        }),
        Value::Made { ty, case, parts } => {
            let parts = of_values(alloc, ctx, spec, parts)?;
            Ok(AbstractValue::Data {
                ty: *ty,
                cases: one_case(alloc, case_count(spec, *ty), *case as usize, parts)?,
            })
        }
        Value::Map(m) => Ok(AbstractValue::Map {
            map: m.map,
            m: of_map(alloc, ctx, map_width(spec, m.map), m)?,
        }),
    }
}

/// The values of several.
#[cycle(of_value)]
fn of_values<B: Base>(
    alloc: Global,
    ctx: &B::Ctx,
    spec: &Spec,
    values: &[Value],
) -> Result<Vec<AbstractValue<B>>, NoMemory>
    requires value { ValuesFit (environment_of (specification spec.now)) (vals (map val values.now)) }
    ensures { IfOk result (λ r. parts (map abs r.items) ≡ of.of_values B.algebra ctx.now B.CAP (environment_of (specification spec.now)) (vals (map val values.now))) }
{
    let mut out = Vec::with_capacity(alloc, values.len())?;
    for value in values {
        out = pushed(out, of_value(alloc, ctx, spec, value))?;
    }
    Ok(out)
}

/// How many constructors a datatype has.
pub fn case_count(spec: &Spec, number: u32) -> usize
    ensures { result ≡ case_count (environment_of (specification spec.now)) number }
{
    match spec.datas.get(number as usize) {
        Some(data) => data.cases.len(),
        None => 0,
    }
}

/// The width of the words of a map type.
fn map_width(spec: &Spec, number: u32) -> u32
    ensures { result ≡ width_of (slice_get (specification spec.now).maps number) }
{
    match spec.maps.get(number as usize) {
        Some(ty) => ty.width,
        None => 0,
    }
}

/// Of so many constructors one is present, with these fields.
pub fn one_case<B: Base>(
    alloc: Global,
    count: usize,
    case: usize,
    values: Vec<AbstractValue<B>>,
) -> Result<Constructors<AbstractValue<B>>, NoMemory>
    requires { case < count }
    ensures { IfOk result (λ r. cases_of r ≡ one_case count case (parts (map abs values.items))) }
{
    Constructors::one(alloc, count, case, values)
}

/// The map of the cells of a concrete one.
fn of_map<B: Base>(
    alloc: Global,
    ctx: &B::Ctx,
    w: u32,
    m: &MapValue,
) -> Result<AbstractMap<B>, NoMemory>
    requires map { MapFits w m.now.rest m.now.cells.items }
    ensures value { IfOk result (λ r. r ≡ map_at B.algebra ctx.now B.CAP w m.now.rest m.now.cells.items) }
{
    let rest = of_cell::<B>(alloc, ctx, w, &m.rest)?;
    AbstractMap::of_cells(alloc, ctx, w, rest, cells_of::<B>(alloc, ctx, w, m)?)
}

/// The cells of a concrete map, with their keys.
fn cells_of<B: Base>(
    alloc: Global,
    ctx: &B::Ctx,
    w: u32,
    m: &MapValue,
) -> Result<Vec<(u64, AbstractCell<B::Word, B::Note>)>, NoMemory>
    requires map { MapFits w m.now.rest m.now.cells.items }
    ensures { IfOk result (λ r. r.items ≡ cells_of B.algebra ctx.now w m.now.cells.items) }
{
    let mut cells = Vec::with_capacity(alloc, m.cells.len())?;
    for (key, cell) in &m.cells {
        cells = pushed(cells, of_entry::<B>(alloc, ctx, w, *key, cell))?;
    }
    Ok(cells)
}

/// A key with the cell of a concrete one.
fn of_entry<B: Base>(
    alloc: Global,
    ctx: &B::Ctx,
    w: u32,
    key: u64,
    cell: &semantics_values::Cell,
) -> Result<(u64, AbstractCell<B::Word, B::Note>), NoMemory>
    requires width { IsWidth w }
    requires number { cell.now.v < 2 ^ w }
    ensures { IfOk result (λ r. r ≡ (key, of.cell_of B.algebra ctx.now w cell.now)) }
{
    Ok((key, of_cell::<B>(alloc, ctx, w, cell)?))
}

/// The cell of a concrete one.
fn of_cell<B: Base>(
    alloc: Global,
    ctx: &B::Ctx,
    w: u32,
    cell: &semantics_values::Cell,
) -> Result<AbstractCell<B::Word, B::Note>, NoMemory>
    requires width { IsWidth w }
    requires number { cell.now.v < 2 ^ w }
    ensures value { IfOk result (λ r. r ≡ of.cell_of B.algebra ctx.now w cell.now) }
{
    Ok(AbstractCell {
        word: B::constant(alloc, ctx, w, cell.v)?,
        note: note_of::<B>(alloc, cell.stamp)?,
    })
}

/// The note of a stamp.
fn note_of<B: Base>(alloc: Global, stamp: Stamp) -> Result<B::Note, NoMemory>
    ensures { IfOk result (λ r. r ≡ note_of B.algebra stamp) }
{
    match stamp {
        Stamp::Entry => B::entry_note(alloc),
        Stamp::At(at) => B::stamp_note(alloc, at),
    }
}
