//! Values that stand for concrete ones.

ghost use Rattle.std.specs.Prelude.{◌≡◌, IfOk, map};
ghost use Rattle.base_concrete.specs.Meaning.{concrete};
ghost use Rattle.spec_ir.specs.Views.{specification};
ghost use Rattle.semantics_values.specs.Types.{environment_of};
ghost use Rattle.semantics_values.specs.Values.{vals};
ghost use Rattle.semantics_values.specs.Views.{val};
ghost use Rattle.abstract_value.specs.View.{abs};
ghost use Rattle.abstract_value_laws.specs.OfValues.{ValuesFit, of_value};
ghost use Rattle.concrete_calls.specs.Laws.{room};

use abstract_value::AbstractValue;
use base_concrete::Concrete;
use semantics_values::Value;
use spec_ir::Spec;
use std::alloc::{AllocError, Global};

/// The values that stand for these.
pub fn standing(
    alloc: Global,
    spec: &Spec,
    values: &[Value],
) -> Result<Vec<AbstractValue<Concrete>>, AllocError>
    requires fit { ValuesFit (environment_of (specification spec.now)) (vals (map val values.now)) }
    ensures { IfOk result (λ r. map abs r.items ≡ map (of_value concrete tt room (environment_of (specification spec.now))) (map val values.now)) }
{
    let mut out = Vec::with_capacity(alloc, values.len())?;
    for value in values {
        out.push(AbstractValue::of_value(alloc, &(), spec, value)?)?;
    }
    Ok(out)
}
