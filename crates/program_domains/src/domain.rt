//! The domains that the program names.

ghost use Rattle.std.specs.Prelude.{◌≡◌, ◌<◌, ◌^◌, Bool, IfOk, IsTrue, length, true};
ghost use Rattle.spec_ir.specs.Views.{specification};
ghost use Rattle.domain_laws.specs.States.{has_states, state_type};

use analysis_claims::ClaimElement;
use base_product::Pair;
use domain_affine::AffineDomain;
use domain_cells::StateDomain;
use domain_product::PairDomain;
use domain_product_states::PairedStates;
use spec_ir::Spec;
use std::alloc::{AllocError as NoMemory, Global};
use text_element_readers::ReadElement;
use text_elements::NamedBase;

/// A domain that can be made for each specification of a machine.
pub trait NamedDomain: ReadElement + ClaimElement + Drop {
    /// Whether its base is one that domains can be made over.
    ghost may: { Bool };

    /// Its words share what those of its base do.
    ghost HasContext: { Self → Type 0 };

    /// The domain for a specification.
    fn make_domain(alloc: Global, spec: &Spec) -> Result<Self, NoMemory>
        requires may { IsTrue may }
        requires states { has_states (specification spec.now) ≡ true }
        requires few { length (state_type (specification spec.now)).fields < 2 ^ 32 }
        ensures made { IfOk result (λ d. IsTrue (Self.is_for d (specification spec.now))) }
        ensures context { IfOk result (λ d. HasContext d) };

    ghost joins: { IsTrue may → IsTrue Self.B.algebra.joins };
}

impl<B: NamedBase> NamedDomain for StateDomain<B> {
    ghost use Rattle.std.specs.Prelude.{◌&&◌, not};
    ghost use Rattle.domain_cells.specs.Views.{context_of};
    ghost use Rattle.program_domains.specs.Instance.{cells_join};

    ghost may = { B.algebra.joins && not B.algebra.words.looks };

    ghost HasContext = { λ it. context_of it ≡ B.shared };

    ghost joins = { λ h. cells_join B.algebra h };

    fn make_domain(alloc: Global, spec: &Spec) -> Result<StateDomain<B>, NoMemory> {
        StateDomain::new(alloc, spec, B::context(alloc))
    }
}

impl NamedDomain for AffineDomain {
    ghost use Rattle.std.specs.Prelude.{refl};

    ghost may = { true };

    ghost HasContext = { λ it. Unit {0} };

    ghost joins = { λ _. refl };

    fn make_domain(alloc: Global, spec: &Spec) -> Result<AffineDomain, NoMemory> {
        AffineDomain::new(alloc, spec)
    }
}

impl<A: NamedDomain, B: NamedDomain> NamedDomain for PairDomain<A, B> {
    ghost use Rattle.std.specs.Prelude.{◌&&◌};
    ghost use Rattle.domain_product_laws.specs.Domain.{may_pair};
    ghost use Rattle.program_domains.specs.Instance.{pairs_join};

    ghost may = { A.may && (B.may && may_pair A.B.algebra B.B.algebra) };

    ghost HasContext = { λ it. A.HasContext it.first × B.HasContext it.second };

    ghost joins = { λ h. pairs_join A.may B.may A.B.algebra B.B.algebra h };

    fn make_domain(alloc: Global, spec: &Spec) -> Result<PairDomain<A, B>, NoMemory> {
        Ok(PairDomain {
            first: A::make_domain(alloc, spec)?,
            second: B::make_domain(alloc, spec)?,
        })
    }
}

impl<A: NamedBase, B: NamedBase> NamedDomain for PairedStates<A, B> {
    ghost use Rattle.std.specs.Prelude.{◌&&◌, not};
    ghost use Rattle.base_product.specs.Meaning.{paired};
    ghost use Rattle.domain_cells.specs.Views.{context_of};
    ghost use Rattle.program_domains.specs.Instance.{cells_join};

    ghost may = { (paired A.algebra B.algebra).joins && not (paired A.algebra B.algebra).words.looks };

    ghost HasContext = { λ it. ((context_of it.states).0 ≡ A.shared) × ((context_of it.states).1 ≡ B.shared) };

    ghost joins = { λ h. cells_join (paired A.algebra B.algebra) h };

    fn make_domain(alloc: Global, spec: &Spec) -> Result<PairedStates<A, B>, NoMemory> {
        let states = StateDomain::new(alloc, spec, Pair(A::context(alloc), B::context(alloc)))?;
        Ok(PairedStates { states })
    }
}
