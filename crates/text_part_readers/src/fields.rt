//! The fields of states.

ghost use Rattle.std.specs.Prelude.{◌≡◌, ◌≤◌, ℕ, ◌∷◌, ◌++◌, [], Some, None, IfOk, IfSome, IsOkAnd, is_some, length, map, option_map, slice_get, true};
ghost use Rattle.std.specs.Result.{ForOk};
ghost use Rattle.std.specs.List.{list_all};
ghost use Rattle.code_image.specs.Image.{code_at};
ghost use Rattle.spec_ir.specs.Views.{specification};
ghost use Rattle.semantics_values.specs.Types.{environment_of};
ghost use Rattle.abstract_value_laws.specs.Abs as plain;
ghost use Rattle.abstract_value_laws.specs.Abs.{parts};
ghost use Rattle.abstract_map.specs.Unfolded.{FitsUnfolded};
ghost use Rattle.abstract_value.specs.View.{abs};
ghost use Rattle.domain_laws.specs.States as states;
ghost use Rattle.domain_laws.specs.States.{has_states, is_field, state_type};
ghost use Rattle.domain_laws.specs.Values.{FieldsFit};
ghost use Rattle.text_part_readers.specs.Cells as defined;
ghost use Rattle.text_lines.specs.Outcomes.{one};

use crate::cells::{CellOf, listed_said, rest_said, word_said};
use abstract_map::AbstractMap;
use abstract_value::AbstractValue;
use base_trait::Base;
use code_image::Image;
use spec_ir::{MapType, Spec, Ty};
use state_cell_text::state_fields;
use std::alloc::{AllocError as NoMemory, Global};
use support_lists::pushed;
use syntax_lexer::Text;
use text_lines::LinesOf;
use text_words::CellBase;

/// Reads a word field.
fn read_word<B: CellBase>(
    alloc: Global,
    name: &[u8],
    w: u32,
    lines: &mut LinesOf<'_>,
) -> Result<Option<AbstractValue<B>>, NoMemory>
    ensures { IfOk result (λ r. (option_map abs r, lines.new) ≡ defined.word_read B.readings name.now w lines.old) }
{
    let Some((line, rest)) = lines.next() else {
        return Ok(None);
    };
    match word_said::<B>(alloc, name, w, line)? {
        Some(x) => {
            *lines = rest;
            Ok(Some(AbstractValue::Word { w, x }))
        }
        None => Ok(None),
    }
}

/// Reads the rest of a map.
fn read_rest<B: CellBase>(
    alloc: Global,
    image: &Image,
    name: &[u8],
    w: u32,
    lines: &mut LinesOf<'_>,
) -> Result<Option<CellOf<B>>, NoMemory>
    ensures { IfOk result (λ r. (r, lines.new) ≡ one (defined.rest_said B.readings (λ a. is_some (code_at image.now a)) name.now w) lines.old) }
{
    let Some((line, rest)) = lines.next() else {
        return Ok(None);
    };
    match rest_said::<B>(alloc, image, name, w, line)? {
        Some(cell) => {
            *lines = rest;
            Ok(Some(cell))
        }
        None => Ok(None),
    }
}

/// Reads a listed cell of a map, whose key comes behind the last one.
fn read_listed_cell<B: CellBase>(
    alloc: Global,
    spec: &Spec,
    image: &Image,
    name: &[u8],
    ty: Ty,
    w: u32,
    last: Option<u64>,
    lines: &mut LinesOf<'_>,
) -> Result<Option<(u64, CellOf<B>)>, NoMemory>
    ensures { IfOk result (λ r. (r, lines.new) ≡ one (defined.listed_said B.readings (λ a. is_some (code_at image.now a)) (specification spec.now)
        name.now ty w last) lines.old) }
{
    let Some((line, rest)) = lines.next() else {
        return Ok(None);
    };
    match listed_said::<B>(alloc, spec, image, name, ty, w, last, line)? {
        Some(cell) => {
            *lines = rest;
            Ok(Some(cell))
        }
        None => Ok(None),
    }
}

/// Reads the listed cells of a map, as many as come, and at most as many as the base may list.
fn read_listed<B: CellBase>(
    alloc: Global,
    spec: &Spec,
    image: &Image,
    name: &[u8],
    ty: Ty,
    w: u32,
    lines: &mut LinesOf<'_>,
) -> Result<Vec<(u64, CellOf<B>)>, NoMemory>
    ensures { IfOk result (λ r. (r.items, lines.new) ≡ defined.listed_read B.readings (λ a. is_some (code_at image.now a)) (specification spec.now)
        B.CAP name.now ty w lines.old) }
{
    let mut cells = Vec::new(alloc);
    let mut last = None;
    'cells: while (cells.len() as u64) < B::CAP {
        match read_listed_cell::<B>(alloc, spec, image, name, ty, w, last, lines) {
            Ok(Some(cell)) => {
                last = Some(cell.0);
                cells = pushed(cells, Ok(cell))?;
            }
            Ok(None) => return Ok(cells),
            Err(error) => {
                drop(cells);
                return Err(error);
            }
        }
    }
    Ok(cells)
}

/// The map of a rest and its listed cells.
fn map_of<B: CellBase>(
    alloc: Global,
    ctx: &B::Ctx,
    number: u32,
    w: u32,
    rest: CellOf<B>,
    cells: Result<Vec<(u64, CellOf<B>)>, NoMemory>,
) -> Result<Option<AbstractValue<B>>, NoMemory>
    requires fits { ForOk cells (λ cs. FitsUnfolded B.algebra ctx.now (record { width = w; rest = rest; cells = cs.items })) }
    requires few { ForOk cells (λ cs. length cs.items ≤ B.CAP) }
    ensures { IfOk result (λ r. IsOkAnd cells (λ cs. option_map abs r ≡ Some (plain.map number (record { width = w; rest = rest; cells = cs.items })))) }
{
    match cells {
        Ok(cells) => {
            let m = AbstractMap::of_cells(alloc, ctx, w, rest, cells)?;
            Ok(Some(AbstractValue::Map { map: number, m }))
        }
        Err(error) => {
            drop(rest);
            Err(error)
        }
    }
}

/// Reads a map of a type: its rest, then its listed cells.
fn read_map<B: CellBase>(
    alloc: Global,
    ctx: &B::Ctx,
    spec: &Spec,
    image: &Image,
    name: &[u8],
    number: u32,
    ty: &MapType,
    lines: &mut LinesOf<'_>,
) -> Result<Option<AbstractValue<B>>, NoMemory>
    requires right { is_field (states.map_field (environment_of (specification spec.now)) number (Some ty.now)) ≡ true }
    ensures { IfOk result (λ r. (option_map abs r, lines.new) ≡ defined.map_read B.readings (λ a. is_some (code_at image.now a))
        (specification spec.now) B.CAP name.now number (Some ty.now) lines.old) }
{
    let w = ty.width;
    match read_rest::<B>(alloc, image, name, w, lines)? {
        Some(rest) => {
            let cells = read_listed::<B>(alloc, spec, image, name, ty.key, w, lines);
            map_of::<B>(alloc, ctx, number, w, rest, cells)
        }
        None => Ok(None),
    }
}

/// Reads a map of a type by its number.
fn read_map_at<B: CellBase>(
    alloc: Global,
    ctx: &B::Ctx,
    spec: &Spec,
    image: &Image,
    name: &[u8],
    number: u32,
    lines: &mut LinesOf<'_>,
) -> Result<Option<AbstractValue<B>>, NoMemory>
    requires right { is_field (states.map_field (environment_of (specification spec.now)) number (slice_get (specification spec.now).maps number)) ≡ true }
    ensures { IfOk result (λ r. (option_map abs r, lines.new) ≡ defined.map_read B.readings (λ a. is_some (code_at image.now a))
        (specification spec.now) B.CAP name.now number (slice_get (specification spec.now).maps number) lines.old) }
{
    match spec.maps.get(number as usize) {
        Some(ty) => read_map::<B>(alloc, ctx, spec, image, name, number, ty, lines),
        None => Ok(None),
    }
}

/// Reads a field.
fn read_value<B: CellBase>(
    alloc: Global,
    ctx: &B::Ctx,
    spec: &Spec,
    image: &Image,
    field: &(Text, Ty),
    lines: &mut LinesOf<'_>,
) -> Result<Option<AbstractValue<B>>, NoMemory>
    requires right { is_field (states.field_of (environment_of (specification spec.now)) field.now.1) ≡ true }
    ensures { IfOk result (λ r. (option_map abs r, lines.new) ≡ defined.value_read B.readings (λ a. is_some (code_at image.now a))
        (specification spec.now) B.CAP field.now.0 field.now.1 lines.old) }
{
    let name = field.0.as_str().as_bytes();
    match field.1 {
        Ty::Word(w) => read_word::<B>(alloc, name, w, lines),
        Ty::Map(map) => read_map_at::<B>(alloc, ctx, spec, image, name, map, lines),
        Ty::Bool | Ty::Data(_) => Ok(None),
    }
}

/// A list with what was read behind it, where something was.
fn append_read<T: Drop>(
    list: Vec<T>,
    next: Result<Option<T>, NoMemory>,
) -> Result<Option<Vec<T>>, NoMemory>
    ensures { IfOk result (λ r. IsOkAnd next (λ n. option_map (λ l. l.items) r ≡ option_map (λ x. list.items ++ x ∷ []) n)) }
{
    match next {
        Ok(Some(item)) => Ok(Some(pushed(list, Ok(item))?)),
        Ok(None) => Ok(None),
        Err(error) => Err(error),
    }
}

/// Reads fields, in their order.
fn read_fields<B: CellBase>(
    alloc: Global,
    ctx: &B::Ctx,
    spec: &Spec,
    image: &Image,
    fields: &[(Text, Ty)],
    lines: &mut LinesOf<'_>,
) -> Result<Option<Vec<AbstractValue<B>>>, NoMemory>
    requires right { list_all is_field (states.fields_of (environment_of (specification spec.now)) (map (λ f. f.1) fields.now)) ≡ true }
    ensures { IfOk result (λ r. (option_map (λ xs. parts (map abs xs.items)) r, lines.new)
        ≡ defined.fields_read B.readings (λ a. is_some (code_at image.now a)) (specification spec.now) B.CAP fields.now lines.old) }
{
    let mut values = Vec::with_capacity(alloc, fields.len())?;
    for i in 0..fields.len() {
        let next = read_value::<B>(alloc, ctx, spec, image, &fields[i], lines);
        let Some(longer) = append_read(values, next)? else {
            return Ok(None);
        };
        values = longer;
    }
    Ok(Some(values))
}

/// All fields but the first.
fn behind_counter(fields: &[(Text, Ty)]) -> &[(Text, Ty)]
    ensures { result.now ≡ defined.behind_counter fields.now }
{
    match fields.split_first() {
        Some((_counter, rest)) => rest,
        None => &[],
    }
}

/// Reads the fields of states but the counter.
pub fn read_cells<B: CellBase>(
    alloc: Global,
    ctx: &B::Ctx,
    spec: &Spec,
    image: &Image,
    lines: &mut LinesOf<'_>,
) -> Result<Option<Vec<AbstractValue<B>>>, NoMemory>
    requires states { has_states (specification spec.now) ≡ true }
    ensures value { IfOk result (λ r. (option_map (λ xs. parts (map abs xs.items)) r, lines.new)
        ≡ defined.states_read B.readings (λ a. is_some (code_at image.now a)) (specification spec.now) B.CAP lines.old) }
    ensures fits { IfOk result (λ r. IfSome r (λ xs. FieldsFit B.algebra ctx.now B.CAP (state_type (specification spec.now)).fields
        (parts (map abs xs.items)))) }
{
    let fields = behind_counter(state_fields(spec));
    read_fields::<B>(alloc, ctx, spec, image, fields, lines)
}
