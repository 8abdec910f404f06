//! States as values over single numbers.

ghost use Rattle.std.specs.Prelude.{◌≡◌, Some, IfOk, map};
ghost use Rattle.spec_ir.specs.Views.{specification};
ghost use Rattle.semantics_values.specs.States as states;
ghost use Rattle.semantics_values.specs.Types.{environment_of};
ghost use Rattle.semantics_values.specs.Views.{state};
ghost use Rattle.semantics_laws.specs.Accepted.{IsAccepted};
ghost use Rattle.semantics_laws.specs.KeptTypes.{IsTypedState};
ghost use Rattle.abstract_value_laws.specs.Abs.{parts};
ghost use Rattle.abstract_value.specs.View.{abs, cases_of};
ghost use Rattle.concrete_emulator.specs.States.{IsLast, IsOfState, IsStateValue, Shows, counter_in, counter_in_cases, counter_in_fields};

use crate::values::{state_of, value_of};
use abstract_value::{AbstractValue, Constructors};
use base_concrete::Concrete;
use concrete_calls::value_in;
use semantics_values::State;
use spec_ir::{Machine, Spec};
use std::alloc::{AllocError, Global};

/// The value that stands for a state.
pub(crate) fn value_of_state(
    alloc: Global,
    spec: &Spec,
    machine: Machine,
    s: &State,
) -> Result<AbstractValue<Concrete>, AllocError>
    requires accepted { IsAccepted (specification spec.now) }
    requires machine { (specification spec.now).machine ≡ Some machine }
    requires typed { IsTypedState (environment_of (specification spec.now)) machine.state (state s.now) }
    ensures { IfOk result (λ r. Shows (specification spec.now) machine.state (state s.now) (abs r)) }
{
    let value = value_of(alloc, machine.state, s)?;
    AbstractValue::of_value(alloc, &(), spec, &value)
}

/// The program counter of a state.
pub(crate) fn counter(s: &AbstractValue<Concrete>) -> Option<u32>
    ensures { result ≡ counter_in (abs s.now) }
{
    match s {
        AbstractValue::Data { ty: _ty, cases } => counter_in_cases(cases),
        AbstractValue::Flag(_) | AbstractValue::Word { .. } | AbstractValue::Map { .. } => None,
    }
}

/// The counter among the fields of the first constructor.
fn counter_in_cases(constructors: &Constructors<AbstractValue<Concrete>>) -> Option<u32>
    ensures { result ≡ counter_in_cases (cases_of constructors.now) }
{
    match constructors.fields(0) {
        Some(fields) => counter_in_fields(fields),
        None => None,
    }
}

/// The counter, the first of fields.
fn counter_in_fields(fields: &[AbstractValue<Concrete>]) -> Option<u32>
    ensures { result ≡ counter_in_fields (parts (map abs fields.now)) }
{
    match fields.first()? {
        AbstractValue::Word { w: _w, x } => u32::try_from(*x).ok(),
        AbstractValue::Flag(_) | AbstractValue::Data { .. } | AbstractValue::Map { .. } => None,
    }
}

/// The state for which a value stands.
pub(crate) fn last(alloc: Global, s: &AbstractValue<Concrete>) -> Result<State, AllocError>
    requires state { IsOfState (abs s.now) }
    ensures { (t : states.State) → IsStateValue t (abs s.now) → IfOk result (λ r. IsLast (state r) t) }
{
    match state_of(value_in(alloc, s)?) {
        Some(state) => Ok(state),
        None => unreachable!(),
    }
}
