//! The order of cells.

ghost use Rattle.std.specs.Prelude.{◌≡◌};
ghost use Rattle.base_trait.specs.Uses.{seen};
ghost use Rattle.fixpoint_theory.specs.Verdicts.{same_key};
ghost use Rattle.analysis_transfer_laws.specs.Uses.{is_cell_before, is_key_before, is_map_before, is_same_cell, place_of};

use base_trait::Use;
use domain_laws::Field;

/// The place of a map among the fields; past them where it is none of them.
fn place_of(fields: &[Field], map: u32) -> usize
    ensures { result ≡ place_of fields.now map }
{
    for i in 0..fields.len() {
        if let Field::Map { map: number, .. } = fields[i] {
            if number == map {
                return i;
            }
        }
    }
    fields.len()
}

/// Whether a map comes before another: by their places, and those that are no fields by their numbers.
fn is_map_before(fields: &[Field], map: u32, other: u32) -> bool
    ensures { result ≡ is_map_before fields.now map other }
{
    let place = place_of(fields, map);
    let other_place = place_of(fields, other);
    if place == other_place {
        map < other
    } else {
        place < other_place
    }
}

/// Whether a key comes before another; any key comes first.
fn is_key_before(key: Option<u64>, other: Option<u64>) -> bool
    ensures { result ≡ is_key_before key other }
{
    match (key, other) {
        (None, Some(_k)) => true,
        (Some(j), Some(k)) => j < k,
        (_, None) => false,
    }
}

/// Whether both are one key, or both are any.
fn is_same_key(key: Option<u64>, other: Option<u64>) -> bool
    ensures { result ≡ same_key key other }
{
    match (key, other) {
        (None, None) => true,
        (Some(j), Some(k)) => j == k,
        _ => false,
    }
}

/// Whether both uses are of one cell.
pub(crate) fn is_same_cell(x: &Use, y: &Use) -> bool
    ensures { result ≡ is_same_cell (seen x.now) (seen y.now) }
{
    x.map == y.map && is_same_key(x.key, y.key)
}

/// Whether the cell of the first use comes before that of the second.
pub fn is_cell_before(fields: &[Field], x: &Use, y: &Use) -> bool
    ensures { result ≡ is_cell_before fields.now (seen x.now) (seen y.now) }
{
    if x.map == y.map {
        is_key_before(x.key, y.key)
    } else {
        is_map_before(fields, x.map, y.map)
    }
}
