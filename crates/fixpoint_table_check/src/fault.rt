//! What fails of a block.

ghost use Rattle.std.specs.Prelude.{◌≡◌, ◌+◌, ◌≤◌, ◌↔◌, ℕ, List, None, Some, IsTrue, IfOk, OnOk, map};
ghost use Rattle.base_trait.specs.Lists.{Each};
ghost use Rattle.base_trait.specs.Uses.{seen};
ghost use Rattle.fixpoint_theory.specs.Analysis.{Analysis};
ghost use Rattle.fixpoint_theory.specs.Code.{inside, is_code, outside};
ghost use Rattle.fixpoint_theory.specs.Elements.{Elements};
ghost use Rattle.fixpoint_theory.specs.Outcome.{sends};
ghost use Rattle.fixpoint_theory.specs.Table.{TableFits};
ghost use Rattle.fixpoint_theory.specs.Verdicts.{ListsTargets, fault_of};
ghost use Rattle.fixpoint_theory.specs.Views.{arriving, listing, listings};

use crate::open::{first_open, first_open_sent};
use crate::same_uses::are_same_uses;
use base_trait::Use;
use fixpoint_theory::{
    Analyser, Arrival, Block, Table, Targets, Transfer, Transferred, Verdict, addresses_of,
    exits_of, next_of,
};
use std::alloc::{AllocError as NoMemory, Global};
use std::sync::ledger::Ledger;
use support_step_counter::Steps;

/// Whether a block's next addresses and exits are these targets.
fn lists_targets<A: Analyser>(
    analyser: &A,
    alloc: Global,
    table: &Table<A::Element>,
    block: &Block<A::Element>,
    targets: &[u32],
) -> Result<bool, NoMemory>
    ensures { IfOk result (λ b. IsTrue b ↔ ListsTargets (A.analysis analyser.now) (listings A.view table.now) (listing A.view block.now) targets.now) }
{
    let next = next_of(analyser, alloc, targets)?;
    let exits = exits_of(analyser, alloc, targets)?;
    Ok(block.next == next && block.exits == exits)
}

/// The first part of a block that fails, if one does, where its transfer by cases sends this.
fn fault_of_cases<A: Analyser>(
    analyser: &A,
    alloc: Global,
    table: &Table<A::Element>,
    at: u32,
    block: &Block<A::Element>,
    arrivals: &[Arrival<A::Element>],
    uses: &[Use],
) -> Result<Option<Verdict<A::Shown>>, NoMemory>
    requires ready { A.IsReady analyser.now }
    requires table { TableFits (A.analysis analyser.now) (listings A.view table.now) }
    requires fits { Each (λ a. (A.analysis analyser.now).elements.fits a.1) (map (arriving A.view) arrivals.now) }
    ensures { IfOk result (λ v. v ≡ fault_of (A.analysis analyser.now) (listings A.view table.now) at (listing A.view block.now)
        (sends (map (arriving A.view) arrivals.now) (map seen uses.now))) }
{
    let targets = addresses_of::<A>(alloc, arrivals)?;
    if !lists_targets(analyser, alloc, table, block, &targets)? {
        return Ok(Some(Verdict::Targets { at }));
    }
    if !are_same_uses(&block.uses, uses) {
        return Ok(Some(Verdict::Use { at }));
    }
    match first_open_sent(analyser, table, arrivals) {
        Some(to) => Ok(Some(Verdict::Open { from: at, to })),
        None => Ok(None),
    }
}

/// The first part of a block that fails, if one does.
pub(crate) fn fault_of<A: Analyser, L: Ledger>(
    analyser: &A,
    alloc: Global,
    table: &Table<A::Element>,
    at: u32,
    block: &Block<A::Element>,
    steps: &mut Steps<L>,
) -> Result<Option<Verdict<A::Shown>>, NoMemory>
    requires ready { A.IsReady analyser.now }
    requires table { TableFits (A.analysis analyser.now) (listings A.view table.now) }
    requires code { IsTrue (is_code (A.analysis analyser.now).code at) }
    requires fits { (A.analysis analyser.now).elements.fits (A.view block.now.elem) }
    ensures value { IfOk result (λ v. v ≡ fault_of (A.analysis analyser.now) (listings A.view table.now) at (listing A.view block.now)
        ((A.analysis analyser.now).transfer at (A.view block.now.elem))) }
    ensures one { IfOk result (λ v. v ≡ None → steps.new ≡ steps.old + 1) }
    ensures most { steps.new ≤ steps.old + 1 }
{
    let Transfer {
        targets,
        post,
        uses,
    } = match analyser.transfer(alloc, at, &block.elem, steps)? {
        Transferred::Undecodable { word } => return Ok(Some(Verdict::Undecodable { at, word })),
        Transferred::Sent { arrivals, uses } => {
            return fault_of_cases(analyser, alloc, table, at, block, &arrivals, &uses);
        }
        Transferred::Made(made) => made,
    };
    let targets = match targets {
        Targets::Many { shown } => return Ok(Some(Verdict::TooManyTargets { at, shown })),
        Targets::List(targets) => targets,
    };
    if !lists_targets(analyser, alloc, table, block, &targets)? {
        return Ok(Some(Verdict::Targets { at }));
    }
    if !are_same_uses(&block.uses, &uses) {
        return Ok(Some(Verdict::Use { at }));
    }
    let Some(post) = post else {
        return Ok(None);
    };
    match first_open(analyser, table, &post, &targets) {
        Some(to) => Ok(Some(Verdict::Open { from: at, to })),
        None => Ok(None),
    }
}
