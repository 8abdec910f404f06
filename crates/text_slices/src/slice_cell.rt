//! The cells that slices are asked for.

ghost use Rattle.std.specs.Prelude.{◌≡◌, option_map, slice_get};
ghost use Rattle.std.specs.Option.{option_copied};
ghost use Rattle.spec_ir.specs.Views.{specification};
ghost use Rattle.state_cell_names.specs.Views.{cell_of, part_of};
ghost use Rattle.state_cell_text.specs.Places as places;
ghost use Rattle.text_slices.specs.Asked as defined;

use spec_ir::{Spec, Ty};
use state_cell_names::{CellName, CellPart, cell_name};
use state_cell_text::{Place, key_number, place_of, state_fields};

/// A map of the states at a key, or at any: the field that it is, its type, and the key.
#[derive(Clone, Copy, Debug, PartialEq, Eq)]
pub struct SliceCell {
    pub field: u32,
    pub map: u32,
    pub key: Option<u64>,
}

/// The number of the map type that a field has, if it has one.
fn map_type(spec: &Spec, field: u32) -> Option<u32>
    ensures { result ≡ defined.map_type (specification spec.now) field }
{
    match state_fields(spec).get(field as usize) {
        Some((_name, Ty::Map(map))) => Some(*map),
        Some((_name, Ty::Bool | Ty::Word(_) | Ty::Data(_))) => None,
        None => None,
    }
}

/// A map at a key, if that is one.
fn at_key(field: u32, map: u32, key: Option<u64>) -> Option<SliceCell>
    ensures { result ≡ defined.at_key field map key }
{
    let key = key?;
    Some(SliceCell {
        field,
        map,
        key: Some(key),
    })
}

/// What is asked for by the name of a cell.
fn asked_by(spec: &Spec, cell: &CellName) -> Option<SliceCell>
    ensures { result ≡ defined.asked_by (specification spec.now) (cell_of cell.now) }
{
    let Some(Place::Map { field, key, .. }) = place_of(spec, cell.name) else {
        return None;
    };
    let map = map_type(spec, field)?;
    match cell.part {
        CellPart::Whole => None,
        CellPart::Rest => Some(SliceCell {
            field,
            map,
            key: None,
        }),
        CellPart::At(text) => at_key(field, map, key_number(spec, key, text)),
    }
}

/// The cell that a text is, if it is `NAME[KEY]` or `NAME[*]` of a map field and one of its keys.
pub fn asked_cell(spec: &Spec, text: &[u8]) -> Option<SliceCell>
    ensures { result ≡ defined.asked (specification spec.now) text.now }
{
    match cell_name(text) {
        Some(cell) => asked_by(spec, &cell),
        None => None,
    }
}
