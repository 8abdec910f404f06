//! The domain of each base.

ghost use Rattle.std.specs.Prelude.{◌≡◌, ◌≤◌, ◌+◌, ◌&&◌, not, IsTrue};
ghost use Rattle.support_command_line.specs.Bases.{base_text};
ghost use Rattle.spec_ir.specs.Views.{specification};
ghost use Rattle.domain_laws.specs.States.{state_type};
ghost use Rattle.domain_product_laws.specs.Domain.{may_pair};
ghost use Rattle.domain_affine_base.specs.Meaning.{affine};
ghost use Rattle.program_domains.specs.Domains.{cells_of, pair_of, relations};
ghost use Rattle.program_domains.specs.Named.{Done};
ghost use Rattle.program_domains.specs.Tasks.{Comes};
ghost use Rattle.program_domains.specs.Work.{IsWork, WorkOf};
ghost use Rattle.program_common.specs.Outcomes.{Gives, answer_of};
ghost use Rattle.program_domain_tasks.specs.Read.{IsAsked, task_of};

use crate::over::in_domain;
use base_bits::Bits;
use base_defuse::DefUse;
use base_interval::Interval;
use base_kset::KSet;
use base_strides::Strides;
use domain_affine::AffineDomain;
use domain_cells::StateDomain;
use domain_product::PairDomain;
use domain_product_states::PairedStates;
use program_common::{Answer, Halt};
use program_domain_tasks::Subject;
use std::alloc::Global;
use std::sync::ledger::Ledger;
use support_command_line::BaseName;
use support_step_counter::Steps;
use text_elements::NamedBase;

/// What is asked, where an element is a word of one base for each cell.
fn over_cells<'a, 'b, A: NamedBase, L: Ledger>(
    alloc: Global,
    it: &Subject<'a>,
    base: BaseName,
    steps: &mut Steps<L>,
) -> Result<Answer, Halt<'b>>
    requires may_A { IsTrue (A.algebra.joins && not A.algebra.words.looks) }
    requires asked { IsAsked (specification it.now.spec.now) it.now.task }
    ensures gives { Gives (Comes (cells_of (state_type (specification it.now.spec.now)) A.algebra A.cuts A.shared A.CAP A.named A.texts A.readings)
        it.now.image.now (base_text base) (task_of (specification it.now.spec.now) it.now.image.now it.now.task)) answer_of result }
    ensures work { IsWork (cells_of (state_type (specification it.now.spec.now)) A.algebra A.cuts A.shared A.CAP A.named A.texts A.readings)
        it.now.image.now (base_text base) (task_of (specification it.now.spec.now) it.now.image.now it.now.task) steps.old steps.new }
{
    in_domain::<StateDomain<A>, L>(alloc, it, base, steps)
}

/// What is asked, where an element is a pair of words of two bases for each cell.
fn over_both<'a, 'b, A: NamedBase, B: NamedBase, L: Ledger>(
    alloc: Global,
    it: &Subject<'a>,
    base: BaseName,
    steps: &mut Steps<L>,
) -> Result<Answer, Halt<'b>>
    requires may_A { IsTrue (A.algebra.joins && not A.algebra.words.looks) }
    requires may_B { IsTrue (B.algebra.joins && not B.algebra.words.looks) }
    requires pair { IsTrue (may_pair A.algebra B.algebra) }
    requires asked { IsAsked (specification it.now.spec.now) it.now.task }
    ensures gives { Gives (Comes (pair_of (cells_of (state_type (specification it.now.spec.now)) A.algebra A.cuts A.shared A.CAP A.named A.texts A.readings)
        (cells_of (state_type (specification it.now.spec.now)) B.algebra B.cuts B.shared B.CAP B.named B.texts B.readings)) it.now.image.now
        (base_text base) (task_of (specification it.now.spec.now) it.now.image.now it.now.task)) answer_of result }
    ensures work { IsWork (pair_of (cells_of (state_type (specification it.now.spec.now)) A.algebra A.cuts A.shared A.CAP A.named A.texts A.readings)
        (cells_of (state_type (specification it.now.spec.now)) B.algebra B.cuts B.shared B.CAP B.named B.texts B.readings)) it.now.image.now
        (base_text base) (task_of (specification it.now.spec.now) it.now.image.now it.now.task) steps.old steps.new }
{
    in_domain::<PairedStates<A, B>, L>(alloc, it, base, steps)
}

/// What is asked, where an element is the affine relations among the tracked cells.
fn over_relations<'a, 'b, L: Ledger>(
    alloc: Global,
    it: &Subject<'a>,
    base: BaseName,
    steps: &mut Steps<L>,
) -> Result<Answer, Halt<'b>>
    requires asked { IsAsked (specification it.now.spec.now) it.now.task }
    ensures gives { Gives (Comes (relations (state_type (specification it.now.spec.now))) it.now.image.now (base_text base)
        (task_of (specification it.now.spec.now) it.now.image.now it.now.task)) answer_of result }
    ensures work { IsWork (relations (state_type (specification it.now.spec.now))) it.now.image.now (base_text base)
        (task_of (specification it.now.spec.now) it.now.image.now it.now.task) steps.old steps.new }
{
    in_domain::<AffineDomain, L>(alloc, it, base, steps)
}

/// What is asked, where an element is a pair of cells and of relations. Of what decides for a pair the cells come first.
fn over_cells_and_relations<'a, 'b, A: NamedBase, L: Ledger>(
    alloc: Global,
    it: &Subject<'a>,
    base: BaseName,
    steps: &mut Steps<L>,
) -> Result<Answer, Halt<'b>>
    requires may_A { IsTrue (A.algebra.joins && not A.algebra.words.looks) }
    requires pair { IsTrue (may_pair A.algebra affine) }
    requires asked { IsAsked (specification it.now.spec.now) it.now.task }
    ensures gives { Gives (Comes (pair_of (cells_of (state_type (specification it.now.spec.now)) A.algebra A.cuts A.shared A.CAP A.named A.texts A.readings)
        (relations (state_type (specification it.now.spec.now)))) it.now.image.now (base_text base)
        (task_of (specification it.now.spec.now) it.now.image.now it.now.task)) answer_of result }
    ensures work { IsWork (pair_of (cells_of (state_type (specification it.now.spec.now)) A.algebra A.cuts A.shared A.CAP A.named A.texts A.readings)
        (relations (state_type (specification it.now.spec.now)))) it.now.image.now (base_text base)
        (task_of (specification it.now.spec.now) it.now.image.now it.now.task) steps.old steps.new }
{
    in_domain::<PairDomain<StateDomain<A>, AffineDomain>, L>(alloc, it, base, steps)
}

/// What is asked, where an element is a pair of relations and of cells. Of what decides for a pair the relations come first.
fn over_relations_and_cells<'a, 'b, B: NamedBase, L: Ledger>(
    alloc: Global,
    it: &Subject<'a>,
    base: BaseName,
    steps: &mut Steps<L>,
) -> Result<Answer, Halt<'b>>
    requires may_B { IsTrue (B.algebra.joins && not B.algebra.words.looks) }
    requires pair { IsTrue (may_pair affine B.algebra) }
    requires asked { IsAsked (specification it.now.spec.now) it.now.task }
    ensures gives { Gives (Comes (pair_of (relations (state_type (specification it.now.spec.now)))
        (cells_of (state_type (specification it.now.spec.now)) B.algebra B.cuts B.shared B.CAP B.named B.texts B.readings)) it.now.image.now
        (base_text base) (task_of (specification it.now.spec.now) it.now.image.now it.now.task)) answer_of result }
    ensures work { IsWork (pair_of (relations (state_type (specification it.now.spec.now)))
        (cells_of (state_type (specification it.now.spec.now)) B.algebra B.cuts B.shared B.CAP B.named B.texts B.readings)) it.now.image.now
        (base_text base) (task_of (specification it.now.spec.now) it.now.image.now it.now.task) steps.old steps.new }
{
    in_domain::<PairDomain<AffineDomain, StateDomain<B>>, L>(alloc, it, base, steps)
}

/// What is asked comes to over a base.
pub fn over_base<'a, 'b, L: Ledger>(
    alloc: Global,
    it: &Subject<'a>,
    base: BaseName,
    steps: &mut Steps<L>,
) -> Result<Answer, Halt<'b>>
    requires { IsAsked (specification it.now.spec.now) it.now.task }
    ensures gives { Gives (Done it.now.image.now (task_of (specification it.now.spec.now) it.now.image.now it.now.task) base) answer_of result }
    ensures work { WorkOf it.now.image.now (task_of (specification it.now.spec.now) it.now.image.now it.now.task) base steps.old steps.new }
{
    match base {
        BaseName::Const => over_cells::<KSet<1>, L>(alloc, it, base, steps),
        BaseName::KSet => over_cells::<KSet<16>, L>(alloc, it, base, steps),
        BaseName::Interval => over_cells::<Interval, L>(alloc, it, base, steps),
        BaseName::Affine => over_relations::<L>(alloc, it, base, steps),
        BaseName::DefUse => over_cells::<DefUse, L>(alloc, it, base, steps),
        BaseName::ConstInterval => over_both::<KSet<1>, Interval, L>(alloc, it, base, steps),
        BaseName::KSetInterval => over_both::<KSet<16>, Interval, L>(alloc, it, base, steps),
        BaseName::KSetAffine => over_cells_and_relations::<KSet<16>, L>(alloc, it, base, steps),
        BaseName::KSetDefUse => over_both::<KSet<16>, DefUse, L>(alloc, it, base, steps),
        BaseName::IntervalAffine => over_cells_and_relations::<Interval, L>(alloc, it, base, steps),
        BaseName::IntervalDefUse => over_both::<Interval, DefUse, L>(alloc, it, base, steps),
        BaseName::AffineDefUse => over_relations_and_cells::<DefUse, L>(alloc, it, base, steps),
        BaseName::Bits => over_cells::<Bits, L>(alloc, it, base, steps),
        BaseName::KSetBits => over_both::<KSet<16>, Bits, L>(alloc, it, base, steps),
        BaseName::IntervalBits => over_both::<Interval, Bits, L>(alloc, it, base, steps),
        BaseName::BitsDefUse => over_both::<Bits, DefUse, L>(alloc, it, base, steps),
        BaseName::Strides => over_cells::<Strides, L>(alloc, it, base, steps),
        BaseName::StridesAffine => over_cells_and_relations::<Strides, L>(alloc, it, base, steps),
        BaseName::StridesDefUse => over_both::<Strides, DefUse, L>(alloc, it, base, steps),
    }
}
