//! The checker of tables that are left open.

ghost use Rattle.std.specs.Prelude.{◌≡◌, ◌+◌, ◌≤◌, ◌↔◌, IsTrue, IfNone, IfOk, IfSome};
ghost use Rattle.std.specs.BTreeMap.{btree_map_len};
ghost use Rattle.base_trait.specs.Identity.{IsIdentity};
ghost use Rattle.fixpoint_theory.specs.Analysis.{Analysis};
ghost use Rattle.fixpoint_theory.specs.Table.{TableFits};
ghost use Rattle.fixpoint_theory.specs.Views.{listings};
ghost use Rattle.fixpoint_open_tables.specs.Endings.{IsClosedButOpen, ends_in};
ghost use Rattle.fixpoint_open_tables.specs.Runs.{IsSoundUntilOpen};
ghost use Rattle.fixpoint_open_tables.specs.Verdicts.{IsSettled, IsUpTo, IsVerdict};

use crate::apart::first_apart;
use crate::block_endings::endings_of;
use crate::endings::Endings;
use crate::left_open::LeftOpen;
use fixpoint_theory::{Described, Table, Verdict};
use std::alloc::{AllocError as NoMemory, Global};
use std::sync::ledger::Ledger;
use support_step_counter::Steps;

/// Whether an address lies before the block that a verdict refuses, or is its own.
fn is_up_to<W>(address: u32, verdict: &Verdict<W>) -> bool
    ensures { IsTrue result ↔ IsUpTo address verdict.now }
{
    match verdict {
        Verdict::Accepted => true,
        Verdict::Entry => false,
        Verdict::Open { from, to: _ } => address <= *from,
        Verdict::Undecodable { at, word: _ } => address <= *at,
        Verdict::TooManyTargets { at, shown: _ } => address <= *at,
        Verdict::Targets { at } => address <= *at,
        Verdict::Use { at } => address <= *at,
    }
}

fn is_accepted<W>(verdict: &Verdict<W>) -> bool
    ensures { IsTrue result ↔ (verdict.now ≡ Verdict.Accepted) }
{
    match verdict {
        Verdict::Accepted => true,
        Verdict::Entry => false,
        Verdict::Open { from: _, to: _ } => false,
        Verdict::Undecodable { at: _, word: _ } => false,
        Verdict::TooManyTargets { at: _, shown: _ } => false,
        Verdict::Targets { at: _ } => false,
        Verdict::Use { at: _ } => false,
    }
}

/// The verdict on a table, or on the ending at an address that comes first.
fn settle<W: Drop>(verdict: Verdict<W>, apart: Option<u32>) -> Verdict<W>
    ensures none { IfNone apart (result ≡ verdict) }
    ensures some { IfSome apart (λ at. IsSettled at verdict result) }
{
    let Some(at) = apart else {
        return verdict;
    };
    if is_up_to(at, &verdict) {
        return Verdict::Targets { at };
    }
    verdict
}

/// Whether a table with these endings is closed but where it is open, or its first part that fails: the entry, and then
/// the blocks by their addresses, each for its ending, its targets, its uses, and what it reaches. An ending that is not
/// that of the transfer, or that stands at an address without a block, is a fault of the targets. What an accepted
/// table says holds of every run of the machine up to and with the first state at an open address.
pub fn check<A: Described, L: Ledger>(
    alloc: Global,
    analyser: &A,
    table: &Table<A::Element>,
    endings: &Endings<A::Shown>,
    steps: &mut Steps<L>,
) -> Result<Verdict<A::Shown>, NoMemory>
where
    A::Shown: Eq,
    requires ready { A.IsReady analyser.now }
    requires table { TableFits (A.analysis analyser.now) (listings A.view table.now) }
    requires same { IsIdentity A.Shown.eq }
    ensures value { IfOk result (IsVerdict (A.analysis analyser.now) (listings A.view table.now) (ends_in endings.now)) }
    ensures accepted { IfOk result (λ v. (v ≡ Verdict.Accepted) ↔ IsClosedButOpen (A.analysis analyser.now) (listings A.view table.now)
        (ends_in endings.now)) }
    ensures sound { IfOk result (λ v. v ≡ Verdict.Accepted → IsSoundUntilOpen (A.analysis analyser.now) (A.machine analyser.now)
        (listings A.view table.now) (ends_in endings.now)) }
    ensures most { steps.new ≤ steps.old + (btree_map_len table.now.blocks + btree_map_len table.now.blocks) }
{
    let verdict = fixpoint_table_check::check(alloc, &LeftOpen { of: analyser }, table, steps)?;
    let own = endings_of(analyser, alloc, table, !is_accepted(&verdict), steps)?;
    Ok(settle(verdict, first_apart(endings, &own)))
}
