//! Writing states.

ghost use Rattle.std.specs.Prelude.{◌≡◌, ◌++◌, [], IfOk, OnOk, map, slice_get};
ghost use Rattle.std.specs.String.{string_bytes};
ghost use Rattle.spec_ir.specs.Views.{specification};
ghost use Rattle.semantics_values.specs.Views as values;
ghost use Rattle.semantics_values.specs.Views.{val};
ghost use Rattle.state_cell_text.specs.Keys.{cell_text};
ghost use Rattle.state_text.specs.Writing as defined;

use semantics_values::{Cell, KeyAt, MapValue, State, Value};
use spec_ir::{MapType, Spec, Ty};
use state_cell_text::{push_cell, push_hex, state_fields};
use std::alloc::{AllocError, Global};
use syntax_lexer::Text;

/// Appends a space, a number of w bits and a line end.
fn push_number(out: &mut String, w: u32, v: u64) -> Result<(), AllocError>
    ensures { OnOk result (string_bytes out.new ≡ string_bytes out.old ++ defined.cell_line [] w v) }
{
    out.push_str(" ")?;
    push_hex(out, w.div_ceil(4), v)?;
    out.push_str("\n")
}

/// Appends the line that gives a cell of a field a number of w bits.
fn push_line(
    out: &mut String,
    spec: &Spec,
    field: &(Text, Ty),
    key: KeyAt,
    w: u32,
    v: u64,
) -> Result<(), AllocError>
    ensures { OnOk result (string_bytes out.new ≡ string_bytes out.old ++ defined.cell_line (cell_text (specification spec.now) field.now key) w v) }
{
    push_cell(out, spec, field, key)?;
    push_number(out, w, v)
}

/// Appends the lines of the listed cells of a map that differ from the rest.
fn push_listed(
    out: &mut String,
    spec: &Spec,
    field: &(Text, Ty),
    width: u32,
    rest: u64,
    cells: &[(u64, Cell)],
) -> Result<(), AllocError>
    ensures { OnOk result (string_bytes out.new ≡ string_bytes out.old ++ defined.listed_lines (specification spec.now) field.now width rest cells.now) }
{
    for cell in cells {
        if cell.1.v != rest {
            push_line(out, spec, field, KeyAt::At(cell.0), width, cell.1.v)?;
        }
    }
    Ok(())
}

/// Appends the line of the rest of a map, if it isn't the default.
fn push_rest(
    out: &mut String,
    spec: &Spec,
    field: &(Text, Ty),
    ty: &MapType,
    rest: u64,
) -> Result<(), AllocError>
    ensures { OnOk result (string_bytes out.new ≡ string_bytes out.old ++ defined.rest_line (specification spec.now) field.now ty.now rest) }
{
    if rest == ty.default {
        return Ok(());
    }
    push_line(out, spec, field, KeyAt::Rest, ty.width, rest)
}

/// Appends the lines of a map.
fn push_map(
    out: &mut String,
    spec: &Spec,
    field: &(Text, Ty),
    number: u32,
    map: &MapValue,
) -> Result<(), AllocError>
    ensures { OnOk result (string_bytes out.new ≡ string_bytes out.old ++ defined.map_lines (specification spec.now) field.now
        (slice_get (specification spec.now).maps number) map.now.rest map.now.cells.items) }
{
    let Some(ty) = spec.maps.get(number as usize) else {
        return Ok(());
    };
    push_rest(out, spec, field, ty, map.rest.v)?;
    push_listed(out, spec, field, ty.width, map.rest.v, &map.cells)
}

/// Appends the lines of a field behind the program counter.
fn push_field(
    out: &mut String,
    spec: &Spec,
    field: &(Text, Ty),
    value: &Value,
) -> Result<(), AllocError>
    ensures { OnOk result (string_bytes out.new ≡ string_bytes out.old ++ defined.lines_as (specification spec.now) field.now field.now.1 (val value.now)) }
{
    match (field.1, value) {
        (Ty::Word(w), Value::Word { v, .. }) => push_line(out, spec, field, KeyAt::Whole, w, *v),
        (Ty::Map(map), Value::Map(value)) => { push_map(out, spec, field, map, value) }
        _ => Ok(()),
    }
}

/// Appends the lines of fields, in their order.
#[tactic(auto, using(crate::proofs::Fields::fields_done))]
fn push_fields(
    out: &mut String,
    spec: &Spec,
    fields: &[(Text, Ty)],
    parts: &[Value],
) -> Result<(), AllocError>
    ensures { OnOk result (string_bytes out.new ≡ string_bytes out.old ++ defined.field_lines (specification spec.now) fields.now (map val parts.now)) }
{
    for i in 0..fields.len().min(parts.len()) {
        push_field(out, spec, &fields[i], &parts[i])?;
    }
    Ok(())
}

/// Appends the text of a state.
pub(crate) fn push_state(out: &mut String, spec: &Spec, state: &State) -> Result<(), AllocError>
    ensures { OnOk result (string_bytes out.new ≡ string_bytes out.old ++ defined.state_text (specification spec.now) (values.state state.now)) }
{
    match state_fields(spec) {
        [] => Ok(()),
        [counter, fields @ ..] => {
            out.push_str(counter.0.as_str())?;
            push_number(out, 32, u64::from(state.pc))?;
            push_fields(out, spec, fields, &state.parts)
        }
    }
}

/// The text of a state: a line for the program counter and each word, and for each map a line for its rest, if it isn't
/// the default, and one for each listed cell that differs from the rest.
pub fn state_text(alloc: Global, spec: &Spec, state: &State) -> Result<Vec<u8>, AllocError>
    ensures { IfOk result (λ r. r.items ≡ defined.state_text (specification spec.now) (values.state state.now)) }
{
    let mut out = String::new(alloc);
    push_state(&mut out, spec, state)?;
    Ok(out.into_bytes())
}
