//! Whether values are those of the fields of a state.

ghost use Rattle.std.specs.Prelude.{◌≡◌, ◌<◌, IsTrue, map};
ghost use Rattle.base_trait.specs.Lists.{Each};
ghost use Rattle.abstract_map_laws.specs.Maps.{keys};
ghost use Rattle.abstract_value_laws.specs.Abs.{parts};
ghost use Rattle.domain_laws.specs.Values.{AreOf, IsOf};
ghost use Rattle.abstract_value.specs.View.{abs};

use abstract_map::AbstractMap;
use abstract_value::AbstractValue;
use domain_affine_base::Affine;
use domain_laws::Field;

/// Whether each listed key is below a bound.
fn lists_below(m: &AbstractMap<Affine>, bound: u64) -> bool
    ensures { IsTrue result → Each (λ k. k < bound) (keys m.now) }
{
    for place in 0..m.listed() {
        if m.key_at(place) >= bound {
            return false;
        }
    }
    true
}

/// Whether a value is one of a field.
fn is_of(field: Field, value: &AbstractValue<Affine>) -> bool
    ensures { IsTrue result → IsOf field (abs value.now) }
{
    match (field, value) {
        (Field::Word { w }, AbstractValue::Word { w: u, x: _x }) => *u == w,
        (
            Field::Map {
                map,
                keys,
                width,
                default: _default,
            },
            AbstractValue::Map { map: n, m },
        ) => {
            if *n != map {
                return false;
            }
            if m.width() != width {
                return false;
            }
            lists_below(m, keys)
        }
        _ => false,
    }
}

/// Whether values are those of fields.
pub(crate) fn are_of(fields: &[Field], values: &[AbstractValue<Affine>]) -> bool
    ensures { IsTrue result → AreOf fields.now (parts (map abs values.now)) }
{
    if fields.len() != values.len() {
        return false;
    }
    for i in 0..fields.len() {
        if !is_of(fields[i], &values[i]) {
            return false;
        }
    }
    true
}
