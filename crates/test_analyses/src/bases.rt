//! Analyses over bases.

ghost use Rattle.std.specs.Prelude.{◌≡◌, ◌&&◌, IsTrue, false};
ghost use Rattle.test_analysis_cases.specs.Subjects.{IsSubject};

use crate::verdicts::Cells;
use analysis_problems::laws::accepted_have_states;
use base_defuse::DefUse;
use base_interval::Interval;
use base_kset::KSet;
use base_product::{Pair, Paired};
use domain_cells::StateDomain;
use std::alloc::{AllocError as NoMemory, Global};
use test_analysis_cases::{Case, Program, Subject, analysed, no};
use text_words::BaseText;

/// What an analysis over a base gives.
fn over<B: BaseText>(
    alloc: Global,
    ctx: B::Ctx,
    subject: &Subject,
    limit: u32,
) -> Result<String, NoMemory>
    requires joins { IsTrue B.algebra.joins }
    requires unseen { B.algebra.words.looks ≡ false }
    requires subject { IsSubject subject.now }
{
    accepted_have_states();
    let domain: StateDomain<B> = StateDomain::new(alloc, &subject.spec, ctx)?;
    analysed(alloc, &Cells, &domain, subject, limit)
}

/// What an analysis over two bases side by side gives.
fn over_both<A: BaseText, B: BaseText>(
    alloc: Global,
    ctx: Pair<A::Ctx, B::Ctx>,
    subject: &Subject,
    limit: u32,
) -> Result<String, NoMemory>
    requires joins { IsTrue (A.algebra.joins && B.algebra.joins) }
    requires first_unseen { A.algebra.words.looks ≡ false }
    requires second_unseen { B.algebra.words.looks ≡ false }
    requires subject { IsSubject subject.now }
{
    over::<Paired<A, B>>(alloc, ctx, subject, limit)
}

/// The bases that cases name.
pub(crate) struct Bases;

impl Program for Bases {
    fn analysed(alloc: Global, case: Case<'_>, it: &Subject) -> Result<String, NoMemory> {
        let limit = case.limit;
        match case.domain {
            "kset" => over::<KSet<16>>(alloc, (), it, limit),
            "kset1" => over::<KSet<1>>(alloc, (), it, limit),
            "interval" => over::<Interval>(alloc, (), it, limit),
            "defuse" => over::<DefUse>(alloc, (), it, limit),
            "kset+interval" => over_both::<KSet<16>, Interval>(alloc, Pair((), ()), it, limit),
            "kset+defuse" => over_both::<KSet<16>, DefUse>(alloc, Pair((), ()), it, limit),
            _ => no(alloc, "base"),
        }
    }
}
