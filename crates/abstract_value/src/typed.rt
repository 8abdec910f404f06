//! Which values have a type.

ghost use Rattle.std.specs.Prelude.{◌≡◌, get_or, length, map, None, slice_get};
ghost use Rattle.spec_ir.specs.Views as view;
ghost use Rattle.spec_ir.specs.Views.{specification};
ghost use Rattle.semantics_values.specs.Types.{environment_of};
ghost use Rattle.abstract_value_laws.specs.Abs.{parts};
ghost use Rattle.abstract_value_laws.specs.Types as types;
ghost use Rattle.abstract_value_laws.specs.Types.{has_case, has_width, have_cases, have_types, of_data};
ghost use Rattle.abstract_value.specs.Constructors.{spread};
ghost use Rattle.abstract_value.specs.View.{abs, case_of, cases_of};

use super::constructors::Constructors;
use super::value::AbstractValue;
use base_trait::Base;
use spec_ir::{Case, Spec, Ty};
use syntax_lexer::Text;

/// Whether a value has a type of the specification.
#[cycle(has_type)]
pub(crate) fn has_type<B: Base>(spec: &Spec, v: &AbstractValue<B>, ty: Ty) -> bool
    ensures { result ≡ types.has_type (environment_of (specification spec.now)) (abs v.now) ty }
{
    match (v, ty) {
        (AbstractValue::Flag(_t), Ty::Bool) => true,
        (AbstractValue::Word { w, x: _x }, Ty::Word(width)) => *w == width,
        (AbstractValue::Data { ty, cases }, Ty::Data(data)) => *ty == data
            && is_data::<B>(spec, data, cases),
        (AbstractValue::Map { map, m }, Ty::Map(number)) => {
            *map == number && has_width(spec, number, m.width())
        }
        _ => false,
    }
}

/// Whether a map type is there, and its words have the width.
fn has_width(spec: &Spec, number: u32, width: u32) -> bool
    ensures { result ≡ has_width (slice_get (specification spec.now).maps number) width }
{
    match spec.maps.get(number as usize) {
        Some(ty) => ty.width == width,
        None => false,
    }
}

/// Whether a datatype is there, with these constructors.
#[cycle(has_type)]
fn is_data<B: Base>(spec: &Spec, number: u32, values: &Constructors<AbstractValue<B>>) -> bool
    ensures { result ≡ of_data (slice_get (specification spec.now).datas number) (have_cases (environment_of (specification spec.now)) (cases_of values.now)) }
{
    match spec.datas.get(number as usize) {
        Some(data) => have_cases::<B>(spec, values, &data.cases),
        None => false,
    }
}

/// Whether each constructor has its place, and the fields of those that are present have their types.
#[cycle(has_type)]
fn have_cases<B: Base>(
    spec: &Spec,
    values: &Constructors<AbstractValue<B>>,
    declared: &[Case],
) -> bool
    ensures { result ≡ have_cases (environment_of (specification spec.now)) (cases_of values.now) (map view.case_of declared.now) }
{
    if values.len() != declared.len() {
        return false;
    }
    match values.alone() {
        Some((number, fields)) => have_types::<B>(spec, fields, &declared[number].fields),
        None => has_each::<B>(spec, values, declared),
    }
}

#[cycle(has_type)]
fn has_each<B: Base>(
    spec: &Spec,
    values: &Constructors<AbstractValue<B>>,
    declared: &[Case],
) -> bool
    requires { length (spread values.now) ≡ length declared.now }
    ensures { result ≡ have_cases (environment_of (specification spec.now)) (cases_of values.now) (map view.case_of declared.now) }
{
    for i in 0..values.len() {
        if !has_case::<B>(spec, values, i, &declared[i]) {
            return false;
        }
    }
    true
}

/// Whether the fields of a constructor, if it is present, have their types.
#[cycle(has_type)]
fn has_case<B: Base>(
    spec: &Spec,
    values: &Constructors<AbstractValue<B>>,
    i: usize,
    declared: &Case,
) -> bool
    ensures { result ≡ has_case (environment_of (specification spec.now)) (case_of (get_or (spread values.now) i None)) (view.case_of declared.now) }
{
    match values.fields(i) {
        Some(fields) => have_types::<B>(spec, fields, &declared.fields),
        None => true,
    }
}

/// Whether values have the types of fields, each the one of its place.
#[cycle(has_type)]
fn have_types<B: Base>(spec: &Spec, values: &[AbstractValue<B>], fields: &[(Text, Ty)]) -> bool
    ensures { result ≡ have_types (environment_of (specification spec.now)) (parts (map abs values.now)) (map (λ f. f.1) fields.now) }
{
    if values.len() != fields.len() {
        return false;
    }
    for i in 0..values.len() {
        if !has_type::<B>(spec, &values[i], fields[i].1) {
            return false;
        }
    }
    true
}
