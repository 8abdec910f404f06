//! State values of elements.

ghost use Rattle.std.specs.Prelude.{◌≡◌, IfOk, IsTrue, map, max};
ghost use Rattle.base_product.specs.Meaning.{paired};
ghost use Rattle.spec_ir.specs.Views.{specification};
ghost use Rattle.abstract_value_laws.specs.Abs.{parts};
ghost use Rattle.domain_laws.specs.Values.{FieldsFit};
ghost use Rattle.domain_laws.specs.Calls.{is_for};
ghost use Rattle.abstract_value.specs.View.{abs};
ghost use Rattle.domain_cells.specs.Views.{context_of, states_of};
ghost use Rattle.domain_product_states.specs.Parts.{both_parts, pair_of_cells};

use abstract_value::AbstractValue;
use base_cuts::CutBase;
use base_product::Paired;
use domain_cells::StateDomain;
use domain_product_values::zip_values;
use domain_trait::Domain;
use spec_ir::Spec;
use std::alloc::{AllocError as NoMemory, Global};

/// The state value of values over the pair: no part is taken out.
pub(crate) fn opened_together<A: CutBase, B: CutBase>(
    states: &StateDomain<Paired<A, B>>,
    alloc: Global,
    spec: &Spec,
    values: &Vec<AbstractValue<Paired<A, B>>>,
    pc: u32,
) -> Result<AbstractValue<Paired<A, B>>, NoMemory>
    requires made { IsTrue (is_for (paired A.algebra B.algebra) (states_of states.now) (specification spec.now)) }
    requires first { FieldsFit A.algebra (context_of states.now).0 A.CAP (states_of states.now).fields (both_parts (parts (map abs values.now.items))).0 }
    requires second { FieldsFit B.algebra (context_of states.now).1 B.CAP (states_of states.now).fields (both_parts (parts (map abs values.now.items))).1 }
    ensures { IfOk result (λ r. abs r ≡ (pair_of_cells A.algebra B.algebra (context_of states.now) A.CAP B.CAP (max A.CAP B.CAP) (states_of states.now)).opened pc (both_parts (parts (map abs values.now.items)))) }
{
    states.open(alloc, spec, values, pc)
}

/// The state value of two parts, put side by side.
pub(crate) fn opened_apart<A: CutBase, B: CutBase>(
    states: &StateDomain<Paired<A, B>>,
    alloc: Global,
    spec: &Spec,
    xs: &[AbstractValue<A>],
    ys: &[AbstractValue<B>],
    pc: u32,
) -> Result<AbstractValue<Paired<A, B>>, NoMemory>
    requires made { IsTrue (is_for (paired A.algebra B.algebra) (states_of states.now) (specification spec.now)) }
    requires first { FieldsFit A.algebra (context_of states.now).0 A.CAP (states_of states.now).fields (parts (map abs xs.now)) }
    requires second { FieldsFit B.algebra (context_of states.now).1 B.CAP (states_of states.now).fields (parts (map abs ys.now)) }
    ensures { IfOk result (λ r. abs r ≡ (pair_of_cells A.algebra B.algebra (context_of states.now) A.CAP B.CAP (max A.CAP B.CAP) (states_of states.now)).opened pc (parts (map abs xs.now), parts (map abs ys.now))) }
{
    let values = zip_values(alloc, states.shared(), xs, ys)?;
    let opened = states.open(alloc, spec, &values, pc);
    drop(values);
    opened
}
