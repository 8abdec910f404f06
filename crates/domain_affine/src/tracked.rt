//! The tracked cells of fields.

ghost use Rattle.std.specs.Prelude.{◌≡◌, ◌+◌, ◌++◌, ◌<◌, ◌≤◌, ◌^◌, IfOk, OnOk, length, map};
ghost use Rattle.std.specs.List.{range_with_len};
ghost use Rattle.semantics_values.specs.declared.entry.KeyAt.TheVariants.{At};
ghost use Rattle.domain_affine_laws.specs.Tracked as calls;
ghost use Rattle.domain_affine_laws.specs.Tracked.{cells_in};

use domain_affine_base::Tracked;
use domain_laws::Field;
use semantics_values::KeyAt;
use std::alloc::{AllocError as NoMemory, Global};

/// How many cells of a field can be tracked.
fn count_of(field: Field) -> usize
    ensures value { result ≡ length (calls.field_cells field) }
    ensures few { result ≤ 64 }
{
    match field {
        Field::Word { w } => { if w == 32 { 1 } else { 0 } }
        Field::Map {
            map: _map,
            keys,
            width,
            default: _default,
        } => {
            if width == 32 && keys <= 64 {
                keys as usize
            } else {
                0
            }
        }
    }
}

/// The keys of a map type, behind other cells.
fn push_keys(cells: &mut Vec<(u32, KeyAt)>, n: u32, keys: u64) -> Result<(), NoMemory>
    ensures { OnOk result (cells.new.items ≡ cells.old.items ++ map (λ key. (n, key)) (map At (range_with_len 0 keys))) }
{
    for k in 0..keys {
        cells.push((n, KeyAt::At(k)))?;
    }
    Ok(())
}

/// The cells of a field that can be tracked, behind others.
fn push_cells(cells: &mut Vec<(u32, KeyAt)>, n: u32, field: Field) -> Result<(), NoMemory>
    ensures { OnOk result (cells.new.items ≡ cells.old.items ++ map (λ key. (n, key)) (calls.field_cells field)) }
{
    match field {
        Field::Word { w } => {
            if w == 32 {
                cells.push((n, KeyAt::Whole))?;
            }
        }
        Field::Map {
            map: _map,
            keys,
            width,
            default: _default,
        } => {
            if width == 32 && keys <= 64 {
                push_keys(cells, n, keys)?;
            }
        }
    }
    Ok(())
}

/// The tracked cells: those of the fields that can be, at most 64; a field that would pass that is left out.
pub(crate) fn tracked_cells(alloc: Global, fields: &[Field]) -> Result<Tracked, NoMemory>
    requires few { length fields.now < 2 ^ 32 }
    ensures { IfOk result (λ r. r ≡ cells_in fields.now) }
{
    let mut cells = Vec::new(alloc);
    for i in 0..fields.len() {
        let field = fields[i];
        if cells.len() + count_of(field) <= 64 {
            push_cells(&mut cells, i as u32 + 1, field)?;
        }
    }
    Ok(Tracked { cells })
}

/// How many cells are tracked.
pub(crate) fn cell_count(tracked: &Tracked) -> u32
    ensures value { result ≡ length tracked.now }
    ensures few { result ≤ 64 }
{
    tracked.cells.len() as u32
}
