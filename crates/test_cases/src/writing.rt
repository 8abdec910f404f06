//! Traces, tables and verdicts as text.

use crate::machine::Interval;
use fixpoint_theory::{Block, Table, Verdict};
use std::alloc::{AllocError as NoMemory, Global};

/// Addresses, as `4100+4104`, or `-` where there are none.
pub(crate) fn joined(alloc: Global, addresses: &[u32]) -> Result<String, NoMemory> {
    let mut text = String::new(alloc);
    for at in addresses {
        if !text.is_empty() {
            text.push('+')?;
        }
        write!(text, "{at}")?;
    }
    if text.is_empty() {
        text.push('-')?;
    }
    Ok(text)
}

fn block_text(alloc: Global, at: u32, block: &Block<Interval>) -> Result<String, NoMemory> {
    let Interval { low, high } = block.elem;
    let next = joined(alloc, &block.next)?;
    let exits = joined(alloc, &block.exits)?;
    let read = if block.uses.is_empty() { "-" } else { "x" };
    format!(in alloc;
        "{at} {low}..{high} {} {} {read}",
        next.as_str(),
        exits.as_str()
    )
}

/// The blocks of a table, by their addresses.
pub(crate) fn table_text(alloc: Global, table: &Table<Interval>) -> Result<String, NoMemory> {
    let mut text = String::new(alloc);
    for (at, block) in table.blocks.iter() {
        if !text.is_empty() {
            text.push_str(", ")?;
        }
        let one = block_text(alloc, *at, block)?;
        text.push_str(one.as_str())?;
    }
    if text.is_empty() {
        text.push('-')?;
    }
    Ok(text)
}

pub(crate) fn verdict_text(alloc: Global, verdict: &Verdict<Interval>) -> Result<String, NoMemory> {
    match verdict {
        Verdict::Accepted => format!(in alloc; "accepted"),
        Verdict::Entry => format!(in alloc; "entry"),
        Verdict::Open { from, to } => format!(in alloc; "open {from} to {to}"),
        Verdict::Undecodable { at, word } => format!(in alloc; "undecodable {at} {word}"),
        Verdict::TooManyTargets { at, shown } => {
            format!(in alloc; "too many {at} {}..{}", shown.low, shown.high)
        }
        Verdict::Targets { at } => format!(in alloc; "targets {at}"),
        Verdict::Use { at } => format!(in alloc; "use {at}"),
    }
}
