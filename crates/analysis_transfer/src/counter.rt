//! The counter of a state value.

ghost use Rattle.std.specs.Prelude.{◌≡◌, map, option_map, slice_get};
ghost use Rattle.std.specs.Option.{option_copied};
ghost use Rattle.abstract_value_laws.specs.Abs.{parts};
ghost use Rattle.abstract_value.specs.View.{abs, cases_of};
ghost use Rattle.analysis_transfer_laws.specs.Transfer as plain;
ghost use Rattle.analysis_transfer.specs.Counters.{first_word, word_in, word_of};

use abstract_value::{AbstractValue, Constructors};
use base_trait::Base;

/// The width and the word of the first field of the one constructor of a value; none of another value.
pub(crate) fn counter_of<B: Base>(state: &AbstractValue<B>) -> Option<(u32, &B::Word)>
    ensures { option_map (λ c. (c.0, c.1.now)) result ≡ plain.counter_of (abs state.now) }
{
    match state {
        AbstractValue::Data { ty: _ty, cases } => of_one(cases),
        _ => None,
    }
}

/// The word of the first field of the one constructor.
fn of_one<B: Base>(values: &Constructors<AbstractValue<B>>) -> Option<(u32, &B::Word)>
    ensures { option_map (λ c. (c.0, c.1.now)) result ≡ word_in (cases_of values.now) }
{
    if values.len() != 1 {
        return None;
    }
    match values.fields(0) {
        Some(fields) => first_word(fields),
        None => None,
    }
}

/// The word of the first field.
fn first_word<B: Base>(fields: &[AbstractValue<B>]) -> Option<(u32, &B::Word)>
    ensures { option_map (λ c. (c.0, c.1.now)) result ≡ first_word (parts (map abs fields.now)) }
{
    match first(fields) {
        Some(field) => word_of(field),
        None => None,
    }
}

/// The first item, if there is one.
fn first<T>(items: &[T]) -> Option<&T>
    ensures { option_copied result ≡ slice_get items.now 0 }
{
    match items.get(0) {
        Some(item) => Some(item),
        None => None,
    }
}

/// The width and the word of a value, where it is a word.
fn word_of<B: Base>(value: &AbstractValue<B>) -> Option<(u32, &B::Word)>
    ensures { option_map (λ c. (c.0, c.1.now)) result ≡ word_of (abs value.now) }
{
    match value {
        AbstractValue::Word { w, x } => Some((*w, x)),
        _ => None,
    }
}
