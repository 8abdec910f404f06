//! The endings of a table's blocks.

ghost use Rattle.std.specs.Prelude.{◌≡◌, ◌+◌, ◌≤◌, ℕ, true, false, IfOk, IsTrue, OnOk};
ghost use Rattle.std.specs.BTreeMap.{btree_map_len};
ghost use Rattle.fixpoint_theory.specs.Analysis.{Analysis};
ghost use Rattle.fixpoint_theory.specs.Code.{is_code};
ghost use Rattle.fixpoint_theory.specs.Elements.{Elements};
ghost use Rattle.fixpoint_theory.specs.Table.{IsClosed, TableFits, Tells};
ghost use Rattle.fixpoint_theory.specs.Views.{listing, listings};
ghost use Rattle.fixpoint_open_tables.specs.Endings.{endings_of, ends_in};
ghost use Rattle.fixpoint_open_tables.specs.Gathering.{IsPut};
ghost use Rattle.fixpoint_open_tables.specs.LeftOpen.{ending_of, left_open, opened};

use crate::ending::Ending;
use crate::endings::Endings;
use fixpoint_theory::{Analyser, Block, Table, Targets, Transfer, Transferred};
use std::alloc::{AllocError as NoMemory, Global};
use std::sync::ledger::Ledger;
use support_step_counter::Steps;

/// How the block of an element at an address ends, by one transfer.
fn ending_at<A: Analyser, L: Ledger>(
    analyser: &A,
    alloc: Global,
    at: u32,
    elem: &A::Element,
    steps: &mut Steps<L>,
) -> Result<Option<Ending<A::Shown>>, NoMemory>
    requires ready { A.IsReady analyser.now }
    requires code { IsTrue (is_code (A.analysis analyser.now).code at) }
    requires fits { (A.analysis analyser.now).elements.fits (A.view elem.now) }
    ensures value { IfOk result (λ e. e ≡ ending_of ((A.analysis analyser.now).transfer at (A.view elem.now))) }
    ensures most { steps.new ≤ steps.old + 1 }
{
    let made = match analyser.transfer(alloc, at, elem, steps)? {
        Transferred::Undecodable { word } => return Ok(Some(Ending::Undecodable { word })),
        Transferred::Sent {
            arrivals: _arrivals,
            uses: _uses,
        } => return Ok(None),
        Transferred::Made(made) => made,
    };
    let Transfer {
        targets,
        post: _post,
        uses: _uses,
    } = made;
    match targets {
        Targets::Many { shown } => Ok(Some(Ending::Open { shown })),
        Targets::List(_targets) => Ok(None),
    }
}

/// How a block ends: one that lists what its transfer gives, left open, has an ending only where it has no next address
/// and no exit. Where `all` says so, it is not known to list that.
fn ending_of<A: Analyser, L: Ledger>(
    analyser: &A,
    alloc: Global,
    at: u32,
    block: &Block<A::Element>,
    all: bool,
    steps: &mut Steps<L>,
) -> Result<Option<Ending<A::Shown>>, NoMemory>
    requires ready { A.IsReady analyser.now }
    requires code { IsTrue (is_code (A.analysis analyser.now).code at) }
    requires fits { (A.analysis analyser.now).elements.fits (A.view block.now.elem) }
    requires tells { all ≡ false → Tells (left_open (A.analysis analyser.now)) (listing A.view block.now)
        (opened ((A.analysis analyser.now).transfer at (A.view block.now.elem))) }
    ensures value { IfOk result (λ e. e ≡ ending_of ((A.analysis analyser.now).transfer at (A.view block.now.elem))) }
    ensures most { steps.new ≤ steps.old + 1 }
{
    if all || block.next.is_empty() && block.exits.is_empty() {
        ending_at(analyser, alloc, at, &block.elem, steps)
    } else {
        Ok(None)
    }
}

/// Adds the ending of the block of an address, if it has one.
pub fn add_ending<W: Drop>(
    endings: &mut Endings<W>,
    at: u32,
    ending: Option<Ending<W>>,
) -> Result<(), NoMemory>
    ensures { OnOk result (IsPut endings.old endings.new at ending) }
{
    if let Some(ending) = ending {
        endings.insert(at, ending)?;
    }
    Ok(())
}

/// The endings of the blocks of a table: of all blocks, or, of a closed one, of those that may be open.
pub(crate) fn endings_of<A: Analyser, L: Ledger>(
    analyser: &A,
    alloc: Global,
    table: &Table<A::Element>,
    all: bool,
    steps: &mut Steps<L>,
) -> Result<Endings<A::Shown>, NoMemory>
    requires ready { A.IsReady analyser.now }
    requires table { TableFits (A.analysis analyser.now) (listings A.view table.now) }
    requires closed { all ≡ false → IsClosed (left_open (A.analysis analyser.now)) (listings A.view table.now) }
    ensures value { IfOk result (λ r. (a : ℕ) → ends_in r a ≡ endings_of (A.analysis analyser.now) (listings A.view table.now) a) }
    ensures most { steps.new ≤ steps.old + btree_map_len table.now.blocks }
{
    let mut found = Endings::new(alloc);
    for (at, block) in table.blocks.iter() {
        let ending = ending_of(analyser, alloc, *at, block, all, steps)?;
        add_ending(&mut found, *at, ending)?;
    }
    Ok(found)
}

/// The endings of the blocks of a table that is closed where it is not open. Each block with neither next addresses
/// nor exits is transferred once.
pub fn table_endings<A: Analyser, L: Ledger>(
    alloc: Global,
    analyser: &A,
    table: &Table<A::Element>,
    steps: &mut Steps<L>,
) -> Result<Endings<A::Shown>, NoMemory>
    requires ready { A.IsReady analyser.now }
    requires table { TableFits (A.analysis analyser.now) (listings A.view table.now) }
    requires closed { IsClosed (left_open (A.analysis analyser.now)) (listings A.view table.now) }
    ensures value { IfOk result (λ r. (a : ℕ) → ends_in r a ≡ endings_of (A.analysis analyser.now) (listings A.view table.now) a) }
    ensures most { steps.new ≤ steps.old + btree_map_len table.now.blocks }
{
    endings_of(analyser, alloc, table, false, steps)
}
