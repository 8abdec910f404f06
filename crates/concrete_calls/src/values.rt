//! The concrete value of an abstract one.

ghost use Rattle.std.specs.Prelude.{◌≡◌, IfOk, map};
ghost use Rattle.semantics_values.specs.Values as v;
ghost use Rattle.semantics_values.specs.Values.{vals};
ghost use Rattle.semantics_values.specs.Views.{map_val, val};
ghost use Rattle.abstract_value_laws.specs.Abs.{parts};
ghost use Rattle.abstract_value.specs.View.{abs, cases_of};
ghost use Rattle.concrete_calls.specs.Values.{case_in, cell_in, cells_in, value_in, values_in};

use abstract_map::AbstractMap;
use abstract_value::{AbstractValue, Constructors};
use base_concrete::Concrete;
use base_trait::Stamp;
use semantics_values::{Cell, MapValue, Value};
use std::alloc::{AllocError as NoMemory, Global};

/// The concrete value that an abstract one stands for: whether a flag may be true, the number of a word, the first constructor that
/// is present, and the cells of a map.
#[cycle(value_in)]
pub fn value_in(alloc: Global, x: &AbstractValue<Concrete>) -> Result<Value, NoMemory>
    ensures { IfOk result (λ r. val r ≡ value_in (abs x.now)) }
{
    match x {
        AbstractValue::Flag(t) => Ok(Value::Flag(t.may_true)),
        AbstractValue::Word { w, x } => Ok(Value::Word { w: *w, v: *x }),
        AbstractValue::Data { ty, cases } => case_in(alloc, *ty, cases),
        AbstractValue::Map { map, m } => Ok(Value::Map(map_in(alloc, *map, m)?)),
    }
}

/// The first constructor that is present.
#[cycle(value_in)]
fn case_in(
    alloc: Global,
    ty: u32,
    constructors: &Constructors<AbstractValue<Concrete>>,
) -> Result<Value, NoMemory>
    ensures { IfOk result (λ r. val r ≡ case_in ty 0 (cases_of constructors.now)) }
{
    for i in 0..constructors.len() {
        if let Some(fields) = constructors.fields(i) {
            return make_constructor(ty, i, values_in(alloc, fields)?);
        }
    }
    make_constructor(ty, constructors.len(), Vec::new(alloc))
}

/// The values of fields.
#[cycle(value_in)]
fn values_in(alloc: Global, fields: &[AbstractValue<Concrete>]) -> Result<Vec<Value>, NoMemory>
    ensures { IfOk result (λ r. vals (map val r.items) ≡ values_in (parts (map abs fields.now))) }
{
    let mut out = Vec::with_capacity(alloc, fields.len())?;
    for field in fields {
        out.push(value_in(alloc, field)?)?;
    }
    Ok(out)
}

/// A constructor by its number. More than 2^32 constructors take more memory than there is.
fn make_constructor(ty: u32, number: usize, fields: Vec<Value>) -> Result<Value, NoMemory>
    ensures { IfOk result (λ r. val r ≡ v.made ty number (vals (map val fields.items))) }
{
    match u32::try_from(number) {
        Ok(case) => Ok(Value::Made {
            ty,
            case,
            parts: fields,
        }),
        Err(_) => Err(NoMemory),
    }
}

/// The map with the same cells.
fn map_in(alloc: Global, map: u32, m: &AbstractMap<Concrete>) -> Result<MapValue, NoMemory>
    ensures { IfOk result (λ r. map_val r ≡ v.map map (cell_in m.now.rest) (cells_in m.now.cells)) }
{
    let (word, note) = m.rest();
    let rest = Cell {
        v: *word,
        stamp: *note,
    };
    let mut cells = Vec::new(alloc);
    for place in 0..m.listed() {
        let (word, note) = m.cell_at(place);
        let cell = Cell {
            v: *word,
            stamp: *note,
        };
        cells.push((m.key_at(place), cell))?;
    }
    Ok(MapValue { map, rest, cells })
}
