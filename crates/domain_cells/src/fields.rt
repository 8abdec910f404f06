//! The fields of states.

ghost use Rattle.std.specs.Prelude.{◌≡◌, ◌≤◌, ◌^◌, IfOk, IsTrue, map, slice_get, true};
ghost use Rattle.std.specs.List.{list_all};
ghost use Rattle.spec_ir.specs.Views.{specification};
ghost use Rattle.semantics_values.specs.Types.{environment_of, key_count};
ghost use Rattle.domain_laws.specs.States as states;
ghost use Rattle.domain_laws.specs.States.{is_field, state_types};

use domain_laws::Field;
use spec_ir::{Spec, Ty, case_count};
use std::alloc::{AllocError as NoMemory, Global};
use syntax_lexer::Text;

/// How many keys a type has, where they are at most 2^32.
fn key_count(spec: &Spec, ty: Ty) -> u64
    requires few { key_count (environment_of (specification spec.now)) ty ≤ 2 ^ 32 }
    ensures { result ≡ key_count (environment_of (specification spec.now)) ty }
{
    match ty {
        Ty::Word(w) => 1 << w,
        Ty::Data(data) => case_count(spec, data) as u64,
        Ty::Bool | Ty::Map(_) => 0,
    }
}

/// The field of a type.
fn field_of(spec: &Spec, ty: Ty) -> Field
    requires right { is_field (states.field_of (environment_of (specification spec.now)) ty) ≡ true }
    ensures { result ≡ states.field_of (environment_of (specification spec.now)) ty }
{
    match ty {
        Ty::Word(w) => Field::Word { w },
        Ty::Map(map) => map_field(spec, map),
        Ty::Bool | Ty::Data(_) => Field::Word { w: 0 },
    }
}

/// The field of a map type.
fn map_field(spec: &Spec, number: u32) -> Field
    requires right { is_field (states.map_field (environment_of (specification spec.now)) number (slice_get (specification spec.now).maps number)) ≡ true }
    ensures { result ≡ states.map_field (environment_of (specification spec.now)) number (slice_get (specification spec.now).maps number) }
{
    match spec.maps.get(number as usize) {
        Some(ty) => Field::Map {
            map: number,
            keys: key_count(spec, ty.key),
            width: ty.width,
            default: ty.default,
        },
        None => Field::Map {
            map: number,
            keys: 0,
            width: 0,
            default: 0,
        },
    }
}

/// The fields of states with their names, the counter first; none where the specification has no machine.
fn state_fields(spec: &Spec) -> &[(Text, Ty)]
    ensures { states.behind (map (λ f. f.1) result.now) ≡ state_types (specification spec.now) }
{
    let Some(machine) = spec.machine else {
        return &[];
    };
    let Some(data) = spec.datas.get(machine.state as usize) else {
        return &[];
    };
    match data.cases.first() {
        Some(case) => &case.fields,
        None => &[],
    }
}

/// All but the first.
fn all_but_first(fields: &[(Text, Ty)]) -> &[(Text, Ty)]
    ensures { map (λ f. f.1) result.now ≡ states.behind (map (λ f. f.1) fields.now) }
{
    match fields.split_first() {
        Some((_first, rest)) => rest,
        None => &[],
    }
}

/// The fields of states behind the counter.
pub fn fields_of(alloc: Global, spec: &Spec) -> Result<Vec<Field>, NoMemory>
    requires right { list_all is_field (states.state_type (specification spec.now)).fields ≡ true }
    ensures { IfOk result (λ r. r.items ≡ (states.state_type (specification spec.now)).fields) }
{
    let fields = all_but_first(state_fields(spec));
    let mut out = Vec::with_capacity(alloc, fields.len())?;
    for i in 0..fields.len() {
        out.push(field_of(spec, fields[i].1))?;
    }
    Ok(out)
}

/// The number of the datatype of states, or 0 where the specification has no machine.
pub fn state_number(spec: &Spec) -> u32
    ensures { result ≡ (states.state_type (specification spec.now)).number }
{
    match spec.machine {
        Some(machine) => machine.state,
        None => 0,
    }
}
