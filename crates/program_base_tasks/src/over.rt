//! What is asked, in a domain.

ghost use Rattle.std.specs.Prelude.{◌≡◌, ◌⊎◌, IsTrue};
ghost use Rattle.support_command_line.specs.Bases.{base_text};
ghost use Rattle.spec_ir.specs.Views.{specification};
ghost use Rattle.program_common.specs.Outcomes.{Gives, answer_of};
ghost use Rattle.program_domain_tasks.specs.Own.{OwnWork};
ghost use Rattle.program_domain_tasks.specs.Read.{IsAsked, task_of};
ghost use Rattle.program_base_tasks.specs.Comes.{OwnComes};

use program_common::{Answer, Halt};
use program_domain_tasks::{
    DomainTask, Subject, analyse_in_domain, check_in_domain, claims_in_domain, convert_in_domain,
    measure_in_domain, slice_in_domain,
};
use program_domains::NamedDomain;
use program_open_tasks::{
    analyse_open_in_domain, check_open_in_domain, claims_open_in_domain, slice_open_in_domain,
};
use std::alloc::Global;
use std::sync::ledger::Ledger;
use support_command_line::BaseName;
use support_step_counter::Steps;

/// What it comes to in a domain that was made for the specification.
fn do_task<'a, 'b, D: NamedDomain, L: Ledger>(
    alloc: Global,
    domain: &D,
    it: &Subject<'a>,
    base: BaseName,
    steps: &mut Steps<L>,
) -> Result<Answer, Halt<'b>>
    requires joins { IsTrue D.B.algebra.joins }
    requires made { IsTrue (D.is_for domain.now (specification it.now.spec.now)) }
    requires asked { IsAsked (specification it.now.spec.now) it.now.task }
    ensures gives { Gives (OwnComes (record { base = D.B.algebra; cap = D.B.CAP; elements = D.elements domain.now; meaning = D.meaning domain.now; pieces = D.pieces domain.now; view = D.view; IsText = D.IsText; Reads = D.Reads domain.now; word_in = D.word_in domain.now; word_text = D.word_text }) (D.telling domain.now) it.now.image.now (base_text base) (task_of (specification it.now.spec.now) it.now.image.now it.now.task)) answer_of result }
    ensures work { OwnWork (record { base = D.B.algebra; cap = D.B.CAP; elements = D.elements domain.now; meaning = D.meaning domain.now; pieces = D.pieces domain.now; view = D.view; IsText = D.IsText; Reads = D.Reads domain.now; word_in = D.word_in domain.now; word_text = D.word_text }) it.now.image.now (base_text base) (task_of (specification it.now.spec.now) it.now.image.now it.now.task) steps.old steps.new }
{
    match &it.task {
        DomainTask::Analyse(start) => analyse_in_domain::<D, L>(
            alloc, domain, it, start, base, steps,
        ),
        DomainTask::AnalyseOpen(start) => analyse_open_in_domain::<D, L>(
            alloc, domain, it, start, base, steps,
        ),
        DomainTask::Measure(start) => measure_in_domain::<D, L>(alloc, domain, it, start, steps),
        DomainTask::Check(start, bytes) => check_in_domain::<D, L>(
            alloc, domain, it, start, base, bytes, steps,
        ),
        DomainTask::CheckOpen(start, bytes) => check_open_in_domain::<D, L>(
            alloc, domain, it, start, base, bytes, steps,
        ),
        DomainTask::Convert(bytes) => convert_in_domain::<D>(alloc, domain, it, base, bytes),
        DomainTask::Slice(start, bytes, criterion) => slice_in_domain::<D, L>(
            alloc, domain, it, start, base, bytes, *criterion, steps,
        ),
        DomainTask::SliceOpen(start, bytes, criterion) => slice_open_in_domain::<D, L>(
            alloc, domain, it, start, base, bytes, *criterion, steps,
        ),
        DomainTask::Claims(start, bytes, list) => claims_in_domain::<D, L>(
            alloc, domain, it, start, base, bytes, list, steps,
        ),
        DomainTask::ClaimsOpen(start, bytes, list) => claims_open_in_domain::<D, L>(
            alloc, domain, it, start, base, bytes, list, steps,
        ),
    }
}

/// What it comes to over a base, in its domain.
pub(crate) fn in_domain<'a, 'b, D: NamedDomain, L: Ledger>(
    alloc: Global,
    it: &Subject<'a>,
    base: BaseName,
    steps: &mut Steps<L>,
) -> Result<Answer, Halt<'b>>
    requires may { IsTrue D.may }
    requires asked { IsAsked (specification it.now.spec.now) it.now.task }
    ensures gives { Gives (λ outcome. (d : D) × (IsTrue (D.is_for d (specification it.now.spec.now)) × D.HasContext d) × OwnComes (record { base = D.B.algebra; cap = D.B.CAP; elements = D.elements d; meaning = D.meaning d; pieces = D.pieces d; view = D.view; IsText = D.IsText; Reads = D.Reads d; word_in = D.word_in d; word_text = D.word_text }) (D.telling d) it.now.image.now (base_text base) (task_of (specification it.now.spec.now) it.now.image.now it.now.task) outcome) answer_of result }
    // Either nothing was done, or at most what the domain that was made takes.
    ensures work { (steps.new ≡ steps.old) ⊎ ((d : D) × (IsTrue (D.is_for d (specification it.now.spec.now)) × D.HasContext d) × (OwnWork (record { base = D.B.algebra; cap = D.B.CAP; elements = D.elements d; meaning = D.meaning d; pieces = D.pieces d; view = D.view; IsText = D.IsText; Reads = D.Reads d; word_in = D.word_in d; word_text = D.word_text }) it.now.image.now (base_text base) (task_of (specification it.now.spec.now) it.now.image.now it.now.task) steps.old steps.new)) }
{
    let domain = D::make_domain(alloc, it.spec)?;
    do_task::<D, L>(alloc, &domain, it, base, steps)
}
