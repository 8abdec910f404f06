//! Traces, tables and verdicts as text.

use crate::reporter::Notation;
use base_trait::{Base, Use};
use domain_trait::Domain;
use fixpoint_theory::{Block, Table, Verdict};
use fixpoint_worklist::AnalyseError;
use semantics_values::KeyAt;
use spec_ir::{Spec, Ty};
use state_cell_text::{push_cell, state_fields};
use std::alloc::{AllocError as NoMemory, Global};
use text_words::push_stamps;

/// Appends addresses behind a word, as a line; nothing, where there are none.
pub(crate) fn push_addresses(
    out: &mut String,
    what: &str,
    addresses: &[u32],
) -> Result<(), NoMemory> {
    if addresses.is_empty() {
        return Ok(());
    }
    write!(out, "    {what}")?;
    for at in addresses {
        write!(out, " {at:08x}")?;
    }
    out.push_str("\n")
}

/// Appends a use, as a line.
fn push_use(out: &mut String, spec: &Spec, of: &Use) -> Result<(), NoMemory> {
    let key = match of.key {
        Some(key) => KeyAt::At(key),
        None => KeyAt::Rest,
    };
    for field in state_fields(spec) {
        if field.1 == Ty::Map(of.map) {
            out.push_str("    use ")?;
            push_cell(out, spec, field, key)?;
            push_stamps(out, &of.from)?;
            out.push_str("\n")?;
        }
    }
    Ok(())
}

/// Appends a block.
fn push_block<D: Domain, N: Notation<D>>(
    alloc: Global,
    out: &mut String,
    spec: &Spec,
    at: u32,
    block: &Block<D::Element>,
) -> Result<(), NoMemory> {
    writeln!(out, "  at {at:08x}")?;
    N::push_element(alloc, out, spec, &block.elem)?;
    for of in &block.uses {
        push_use(out, spec, of)?;
    }
    push_addresses(out, "next", &block.next)?;
    push_addresses(out, "exit", &block.exits)
}

/// Appends the blocks of a table, by their addresses.
pub(crate) fn push_table<D: Domain, N: Notation<D>>(
    alloc: Global,
    out: &mut String,
    spec: &Spec,
    table: &Table<D::Element>,
) -> Result<(), NoMemory> {
    for (at, block) in table.blocks.iter() {
        push_block::<D, N>(alloc, out, spec, *at, block)?;
    }
    Ok(())
}

/// Appends that a transfer has too many targets.
fn push_many<D: Domain, N: Notation<D>>(
    out: &mut String,
    at: u32,
    shown: &<D::B as Base>::Word,
) -> Result<(), NoMemory> {
    write!(out, "targets {at:08x} ")?;
    N::push_word(out, 32, shown)?;
    out.push_str("\n")
}

/// Appends where an analysis was when it stopped, and why.
pub(crate) fn push_stop<D: Domain, N: Notation<D>>(
    out: &mut String,
    error: &AnalyseError<<D::B as Base>::Word>,
) -> Result<(), NoMemory> {
    match error {
        AnalyseError::Undecodable { at, word, trace } => {
            push_addresses(out, "trace", trace)?;
            writeln!(out, "  undecodable {at:08x} {word:08x}")
        }
        AnalyseError::TooManyTargets { at, shown, trace } => {
            push_addresses(out, "trace", trace)?;
            out.push_str("  ")?;
            push_many::<D, N>(out, *at, shown)
        }
        AnalyseError::NoMemory => Err(NoMemory),
    }
}

/// Appends a verdict.
pub(crate) fn push_verdict<D: Domain, N: Notation<D>>(
    out: &mut String,
    verdict: &Verdict<<D::B as Base>::Word>,
) -> Result<(), NoMemory> {
    match verdict {
        Verdict::Accepted => out.push_str("accepted\n"),
        Verdict::Entry => out.push_str("rejected entry\n"),
        Verdict::Open { from, to } => writeln!(out, "rejected open {from:08x} {to:08x}"),
        Verdict::Undecodable { at, word } => writeln!(out, "undecodable {at:08x} {word:08x}"),
        Verdict::TooManyTargets { at, shown } => push_many::<D, N>(out, *at, shown),
        Verdict::Targets { at } => writeln!(out, "rejected targets {at:08x}"),
        Verdict::Use { at } => writeln!(out, "rejected use {at:08x}"),
    }
}
