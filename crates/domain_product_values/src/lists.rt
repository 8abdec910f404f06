//! Lists that grow by one, and what a constructor has.

ghost use Rattle.std.specs.Prelude.{◌≡◌, ◌++◌, ◌∷◌, [], option_map, IfOk, IsOkAnd, Some};
ghost use Rattle.abstract_value.specs.Constructors.{AreWithin, spread};

use abstract_value::{AbstractValue, Constructors, shared_list};
use base_trait::Base;
use std::alloc::{AllocError as NoMemory, Global};
use std::rc::Rc;
use support_lists::pushed;

/// Fields with one more behind them, if there is one.
pub(crate) fn pushed_field<B: Base>(
    fields: Vec<AbstractValue<B>>,
    next: Result<AbstractValue<B>, NoMemory>,
) -> Result<Vec<AbstractValue<B>>, NoMemory>
    ensures { IfOk result (λ r. IsOkAnd next (λ x. r.items ≡ fields.items ++ x ∷ [])) }
{
    pushed(fields, next)
}

/// Constructors with one more behind them, if there is one.
pub(crate) fn pushed_case<B: Base>(
    alloc: Global,
    cases: Constructors<AbstractValue<B>>,
    next: Result<Option<Rc<Vec<AbstractValue<B>>>>, NoMemory>,
) -> Result<Constructors<AbstractValue<B>>, NoMemory>
    requires { AreWithin cases }
    ensures value { IfOk result (λ r. IsOkAnd next (λ x. spread r ≡ spread cases ++ option_map (λ f. f.value.items) x ∷ [])) }
    ensures within { IfOk result AreWithin }
{
    cases.grown(alloc, next)
}

/// What a constructor has that is there, if it could be made.
pub(crate) fn present<T: Drop>(
    alloc: Global,
    fields: Result<Vec<T>, NoMemory>,
) -> Result<Option<Rc<Vec<T>>>, NoMemory>
    ensures { IfOk result (λ r. IsOkAnd fields (λ x. option_map (λ f. f.value.items) r ≡ Some x.items)) }
{
    match fields {
        Ok(fields) => Ok(Some(shared_list(alloc, fields)?)),
        Err(error) => Err(error),
    }
}
