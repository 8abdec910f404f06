//! What is hashed of a value.

ghost use Rattle.std.specs.Prelude.{◌≡◌, get_or, map, fold, None};
ghost use Rattle.abstract_value_laws.specs.Abs.{parts};
ghost use Rattle.abstract_value.specs.Constructors.{spread};
ghost use Rattle.abstract_value.specs.Same.{hashed_case, hashed_cases, hashed_parts, hashed_value};
ghost use Rattle.abstract_value.specs.View.{abs, case_of, cases_of};

use super::constructors::Constructors;
use super::value::AbstractValue;
use base_trait::Base;
use std::hash::{Hash, Hasher};

impl<B: Base> Hash for AbstractValue<B> {
    ghost use Rattle.std.proofs.Common.{ap};
    ghost use Rattle.abstract_value.specs.Same.{hashed_view, same_value_is};
    ghost use Rattle.abstract_value.specs.View.{abs};

    ghost hash_input = { hashed_view B.Word.hash_input B.Note.hash_input };

    ghost respects_eq = { λ x y e. ap (hashed_value B.Word.hash_input B.Note.hash_input) (same_value_is B.Word.eq B.Note.eq B.same_words B.same_notes (abs x) (abs y) e) };

    fn hash<H: Hasher>(&self, state: &mut H) {
        hash_value::<B, H>(self, state);
    }
}

/// Which form the value has, and its parts.
#[cycle(hash)]
fn hash_value<B: Base, H: Hasher>(v: &AbstractValue<B>, state: &mut H)
    ensures { state.new ≡ fold H.write state.old (hashed_value B.Word.hash_input B.Note.hash_input (abs v.now)) }
{
    match v {
        AbstractValue::Flag(t) => {
            state.write_u8(0);
            t.may_true.hash(state);
            t.may_false.hash(state);
        }
        AbstractValue::Word { w, x } => {
            state.write_u8(1);
            w.hash(state);
            x.hash(state);
        }
        AbstractValue::Data { ty, cases } => {
            state.write_u8(2);
            ty.hash(state);
            hash_cases::<B, H>(cases, state);
        }
        AbstractValue::Map { map, m } => {
            state.write_u8(3);
            map.hash(state);
            m.hash(state);
        }
    }
}

#[cycle(hash)]
fn hash_cases<B: Base, H: Hasher>(values: &Constructors<AbstractValue<B>>, state: &mut H)
    ensures { state.new ≡ fold H.write state.old (hashed_cases B.Word.hash_input B.Note.hash_input (cases_of values.now)) }
{
    for i in 0..values.len() {
        hash_case::<B, H>(values, i, state);
    }
}

#[cycle(hash)]
fn hash_case<B: Base, H: Hasher>(values: &Constructors<AbstractValue<B>>, i: usize, state: &mut H)
    ensures { state.new ≡ fold H.write state.old (hashed_case B.Word.hash_input B.Note.hash_input (case_of (get_or (spread values.now) i None))) }
{
    match values.fields(i) {
        None => state.write_u8(0),
        Some(fields) => {
            state.write_u8(1);
            hash_parts::<B, H>(fields, state);
        }
    }
}

#[cycle(hash)]
fn hash_parts<B: Base, H: Hasher>(values: &[AbstractValue<B>], state: &mut H)
    ensures { state.new ≡ fold H.write state.old (hashed_parts B.Word.hash_input B.Note.hash_input (parts (map abs values.now))) }
{
    for value in values {
        hash_value::<B, H>(value, state);
    }
}
