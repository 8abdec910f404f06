//! Pieces of values.

ghost use Rattle.std.specs.Prelude.{◌≡◌, option_map, IfOk};
ghost use Rattle.abstract_value.specs.View.{abs};
ghost use Rattle.abstract_value_laws.specs.Abs as plain;
ghost use Rattle.abstract_value_laws.specs.Abs.{word};
ghost use Rattle.abstract_value_laws.specs.Fits.{Fits};
ghost use Rattle.domain_cell_pieces.specs.Pieces.{value_piece};

use crate::maps::map_piece;
use abstract_map::AbstractMap;
use abstract_value::AbstractValue;
use base_cuts::CutBase;
use domain_laws::Field;
use semantics_values::KeyAt;
use std::alloc::{AllocError as NoMemory, Global};

/// What is left of the value of a field, where the cell of a key lies between two numbers, or none where nothing is. A cell that the field lacks leaves
/// the value as it is.
pub fn value_piece<B: CutBase>(
    alloc: Global,
    ctx: &B::Ctx,
    field: Field,
    key: KeyAt,
    low: u64,
    high: u64,
    x: &AbstractValue<B>,
) -> Result<Option<AbstractValue<B>>, NoMemory>
    requires fits { Fits B.algebra ctx.now B.CAP (abs x.now) }
    ensures { IfOk result (λ r. option_map abs r ≡ value_piece B.algebra B.cuts ctx.now B.CAP field key low high (abs x.now)) }
{
    match (field, key, x) {
        (Field::Word { .. }, KeyAt::Whole, AbstractValue::Word { w, x }) => {
            Ok(word_of::<B>(*w, B::meet(alloc, ctx, *w, x, low, high)?))
        }
        (Field::Map { keys, .. }, KeyAt::At(key), AbstractValue::Map { map, m }) => {
            Ok(map_of(*map, map_piece(alloc, ctx, keys, key, low, high, m)?))
        }
        (_, _, x) => Ok(Some(x.copy(alloc, ctx)?)),
    }
}

/// The value of a word, if there is one.
fn word_of<B: CutBase>(w: u32, left: Option<B::Word>) -> Option<AbstractValue<B>>
    ensures { option_map abs result ≡ option_map (word w) left }
{
    match left {
        Some(x) => Some(AbstractValue::Word { w, x }),
        None => None,
    }
}

/// The value of a map, if there is one.
fn map_of<B: CutBase>(map: u32, left: Option<AbstractMap<B>>) -> Option<AbstractValue<B>>
    ensures { option_map abs result ≡ option_map (plain.map map) left }
{
    match left {
        Some(m) => Some(AbstractValue::Map { map, m }),
        None => None,
    }
}
