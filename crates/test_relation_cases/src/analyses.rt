//! What analyses in domains give.

ghost use Rattle.std.specs.Prelude.{◌&&◌, IsTrue};
ghost use Rattle.domain_product_laws.specs.Domain.{may_pair};
ghost use Rattle.test_analysis_cases.specs.Subjects.{IsSubject};

use crate::domains::ShownDomain;
use crate::verdicts::{Relations, Replacement};
use analysis_problems::laws::accepted_have_states;
use base_trait::Base;
use domain_product::PairDomain;
use domain_trait::Domain;
use std::alloc::{AllocError as NoMemory, Global};
use test_analysis_cases::{Subject, analysed};

/// What an analysis in a domain gives.
pub fn over<D: ShownDomain>(
    alloc: Global,
    subject: &Subject,
    by: Option<Replacement<'_>>,
) -> Result<String, NoMemory>
    requires may { IsTrue D.may }
    requires subject { IsSubject subject.now }
{
    accepted_have_states();
    let domain = D::make_domain(alloc, &subject.spec)?;
    analysed(alloc, &Relations { by }, &domain, subject, 64)
}

/// What an analysis in two domains side by side gives.
pub fn over_both<A: ShownDomain, B: ShownDomain>(
    alloc: Global,
    subject: &Subject,
    by: Option<Replacement<'_>>,
) -> Result<String, NoMemory>
    requires may { IsTrue (A.may && (B.may && may_pair A.B.algebra B.B.algebra)) }
    requires subject { IsSubject subject.now }
{
    over::<PairDomain<A, B>>(alloc, subject, by)
}
