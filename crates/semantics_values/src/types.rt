//! Which values have a type.

ghost use Rattle.std.specs.Prelude.{◌≡◌, ◌&&◌, ◌^◌, ℕ, map, nat_lt, slice_get, option_map};
ghost use Rattle.std.specs.List.{list_all};
ghost use Rattle.std.specs.Option.{option_copied};
ghost use Rattle.spec_ir.specs.Texts.{case_at};
ghost use Rattle.spec_ir.specs.Views as view;
ghost use Rattle.spec_ir.specs.Views.{specification};
ghost use Rattle.spec_ir.specs.declared.ty.Ty.TheVariants as ty;
ghost use Rattle.semantics_values.specs.Types as types;
ghost use Rattle.semantics_values.specs.Types.{environment_of, key_count, keys_ascend, listed_fits, map_fits};
ghost use Rattle.semantics_values.specs.Values.{vals};
ghost use Rattle.semantics_values.specs.Views.{val};

use crate::value::{Cell, MapValue, Value};
use spec_ir::{Case, MapType, Spec, Ty, case_count};
use syntax_lexer::Text;

/// Whether a value has a type of the specification: words are below 2 to their width, constructors have
/// their fields, and the keys that a map lists ascend and are keys of its map type.
#[cycle(has_type)]
pub fn has_type(spec: &Spec, v: &Value, t: Ty) -> bool
    ensures { result ≡ types.has_type (environment_of (specification spec.now)) (val v.now) t }
{
    match (v, t) {
        (Value::Flag(_flag), Ty::Bool) => true,
        (Value::Word { w, v }, Ty::Word(width)) => *w == width && is_below(*v, width),
        (Value::Made { ty, case, parts }, Ty::Data(data)) => {
            *ty == data && is_constructor(spec, data, *case, parts)
        }
        (Value::Map(m), Ty::Map(map)) => m.map == map && is_map(spec, m),
        _ => false,
    }
}

/// Whether a number has at most w bits.
fn is_below(v: u64, w: u32) -> bool
    ensures { result ≡ nat_lt v (2 ^ w) }
{
    let w = u64::from(w);
    w >= 64 || v < 1 << w
}

/// Whether the fields of a constructor have their types.
#[cycle(has_type)]
fn is_constructor(spec: &Spec, number: u32, case: u32, parts: &[Value]) -> bool
    ensures { result ≡ types.of_case (case_at (environment_of (specification spec.now)) (ty.Data number) case)
        (types.have_types (environment_of (specification spec.now)) (vals (map val parts.now))) }
{
    match case_of(spec, number, case) {
        Some(case) => have_types(spec, parts, &case.fields),
        None => false,
    }
}

/// Whether values have the types of fields, each the one of its place.
#[cycle(has_type)]
fn have_types(spec: &Spec, parts: &[Value], fields: &[(Text, Ty)]) -> bool
    ensures { result ≡ types.have_types (environment_of (specification spec.now)) (vals (map val parts.now)) (map (λ f. f.1) fields.now) }
{
    for i in 0..parts.len() {
        if i >= fields.len() {
            return false;
        }
        if !has_type(spec, &parts[i], fields[i].1) {
            return false;
        }
    }
    parts.len() == fields.len()
}

/// A constructor by its numbers, where it is there.
fn case_of(spec: &Spec, number: u32, case: u32) -> Option<&Case>
    ensures { option_map view.case_of (option_copied result) ≡ case_at (environment_of (specification spec.now)) (ty.Data number) case }
{
    spec.datas.get(number as usize)?.cases.get(case as usize)
}

/// Whether the rest and the listed cells of a map are those of its map type.
fn is_map(spec: &Spec, m: &MapValue) -> bool
    ensures { result ≡ map_fits (environment_of (specification spec.now)) (slice_get spec.now.maps.items m.now.map) m.now.rest m.now.cells.items }
{
    match spec.maps.get(m.map as usize) {
        Some(ty) => is_below(m.rest.v, ty.width)
            && do_ascend(&m.cells)
            && are_listed(spec, ty, &m.cells),
        None => false,
    }
}

/// Whether the keys of cells ascend.
fn do_ascend(cells: &[(u64, Cell)]) -> bool
    ensures { result ≡ keys_ascend 0 cells.now }
{
    let mut least = 0;
    for cell in cells {
        if u128::from(cell.0) < least {
            return false;
        }
        least = u128::from(cell.0) + 1;
    }
    true
}

/// Whether the keys of cells are keys of a map type, and their numbers have its width.
fn are_listed(spec: &Spec, ty: &MapType, cells: &[(u64, Cell)]) -> bool
    ensures { result ≡ list_all (listed_fits (key_count (environment_of (specification spec.now)) ty.now.key) ty.now.width) cells.now }
{
    for cell in cells {
        if !is_key(spec, ty.key, cell.0) || !is_below(cell.1.v, ty.width) {
            return false;
        }
    }
    true
}

/// Whether a number is a key of a type.
fn is_key(spec: &Spec, ty: Ty, key: u64) -> bool
    ensures { result ≡ nat_lt key (key_count (environment_of (specification spec.now)) ty) }
{
    match ty {
        Ty::Word(w) => is_below(key, w),
        Ty::Data(data) => key < case_count(spec, data) as u64,
        Ty::Bool | Ty::Map(_) => false,
    }
}
