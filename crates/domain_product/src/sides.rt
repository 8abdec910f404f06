//! What one of two domains does, and state values side by side.

ghost use Rattle.std.specs.Prelude.{◌≡◌, IfOk, IsOkAnd, IsTrue, max};
ghost use Rattle.spec_ir.specs.Views.{specification};
ghost use Rattle.domain_laws.specs.States.{state_type};
ghost use Rattle.domain_laws.specs.Values.{IsStateValue};
ghost use Rattle.abstract_value_laws.specs.Fits.{Fits};
ghost use Rattle.fixpoint_cases.specs.Pieces.{both_there};
ghost use Rattle.domain_product_laws.specs.Calls.{first_value, second_value, zip_value};
ghost use Rattle.domain_product_laws.proofs.Values.{Meet};
ghost use Rattle.abstract_value.specs.View.{abs};

use abstract_value::AbstractValue;
use base_product::{Pair, Paired};
use base_trait::Base;
use domain_product_values::{first, second, zip};
use domain_trait::Domain;
use spec_ir::Spec;
use std::alloc::{AllocError as NoMemory, Global};

/// Two state values side by side, if what their words share was copied.
pub(crate) fn side_by_side<A: Base, B: Base>(
    alloc: Global,
    ctx: Result<Pair<A::Ctx, B::Ctx>, NoMemory>,
    x: &AbstractValue<A>,
    y: &AbstractValue<B>,
) -> Result<AbstractValue<Paired<A, B>>, NoMemory>
    requires left { IfOk ctx (λ c. Fits A.algebra c.0 A.CAP (abs x.now)) }
    requires right { IfOk ctx (λ c. Fits B.algebra c.1 B.CAP (abs y.now)) }
    requires widths { Meet (abs x.now) (abs y.now) }
    ensures { IfOk result (λ r. IsOkAnd ctx (λ c. abs r ≡ zip_value A.algebra B.algebra c (max A.CAP B.CAP) (abs x.now) (abs y.now))) }
{
    let ctx = ctx?;
    zip(alloc, &ctx, x, y)
}

/// The same of a second one that may fail. Both are let go here.
pub(crate) fn pair_results<A: Base, B: Base>(
    alloc: Global,
    ctx: Result<Pair<A::Ctx, B::Ctx>, NoMemory>,
    x: AbstractValue<A>,
    y: Result<AbstractValue<B>, NoMemory>,
) -> Result<AbstractValue<Paired<A, B>>, NoMemory>
    requires left { IfOk ctx (λ c. Fits A.algebra c.0 A.CAP (abs x)) }
    requires right { IfOk y (λ v. IfOk ctx (λ c. Fits B.algebra c.1 B.CAP (abs v))) }
    requires widths { IfOk y (λ v. Meet (abs x) (abs v)) }
    ensures { IfOk result (λ r. IsOkAnd y (λ v. IsOkAnd ctx (λ c. abs r ≡ zip_value A.algebra B.algebra c (max A.CAP B.CAP) (abs x) (abs v)))) }
{
    let y = match y {
        Ok(y) => y,
        Err(error) => {
            drop(x);
            return Err(error);
        }
    };
    let both = side_by_side(alloc, ctx, &x, &y);
    drop(x);
    drop(y);
    both
}

/// The element behind an instruction, by the first part of the state value that it gave.
pub(crate) fn closed_first<D: Domain, B: Base>(
    domain: &D,
    alloc: Global,
    spec: &Spec,
    before: &D::Element,
    value: &AbstractValue<Paired<D::B, B>>,
) -> Result<D::Element, NoMemory>
    requires made { IsTrue (D.is_for domain.now (specification spec.now)) }
    requires fits { (D.elements domain.now).fits (D.view before.now) }
    requires state { IsStateValue D.B.algebra (D.meaning domain.now).context D.B.CAP (state_type (specification spec.now)) (first_value (abs value.now)) }
    ensures value { IfOk result (λ r. (D.elements domain.now).same (D.view r) ((D.meaning domain.now).closed (D.view before.now) (first_value (abs value.now)))) }
    ensures fits { IfOk result (λ r. (D.elements domain.now).fits (D.view r)) }
{
    let ctx = domain.ctx(alloc)?;
    let part = first(alloc, &ctx, value)?;
    let closed = domain.close(alloc, spec, before, &part);
    drop(part);
    closed
}

/// The same by the second part.
pub(crate) fn closed_second<B: Base, D: Domain>(
    domain: &D,
    alloc: Global,
    spec: &Spec,
    before: &D::Element,
    value: &AbstractValue<Paired<B, D::B>>,
) -> Result<D::Element, NoMemory>
    requires made { IsTrue (D.is_for domain.now (specification spec.now)) }
    requires fits { (D.elements domain.now).fits (D.view before.now) }
    requires state { IsStateValue D.B.algebra (D.meaning domain.now).context D.B.CAP (state_type (specification spec.now)) (second_value (abs value.now)) }
    ensures value { IfOk result (λ r. (D.elements domain.now).same (D.view r) ((D.meaning domain.now).closed (D.view before.now) (second_value (abs value.now)))) }
    ensures fits { IfOk result (λ r. (D.elements domain.now).fits (D.view r)) }
{
    let ctx = domain.ctx(alloc)?;
    let part = second(alloc, &ctx, value)?;
    let closed = domain.close(alloc, spec, before, &part);
    drop(part);
    closed
}

/// Both, if both are there.
pub(crate) fn both_there<X: Drop, Y: Drop>(first: Option<X>, second: Option<Y>) -> Option<(X, Y)>
    ensures { result ≡ both_there first second }
{
    match (first, second) {
        (Some(x), Some(y)) => Some((x, y)),
        _ => None,
    }
}
