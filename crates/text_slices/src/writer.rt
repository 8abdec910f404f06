//! Writing slices.

ghost use Rattle.std.specs.Prelude.{◌≡◌, ◌++◌, IfOk, OnOk};
ghost use Rattle.std.specs.String.{string_bytes};
ghost use Rattle.spec_ir.specs.Views.{specification};
ghost use Rattle.text_slices.specs.Writing as lines;

use crate::slice_cell::SliceCell;
use analysis_slices::Slice;
use semantics_values::KeyAt;
use spec_ir::Spec;
use state_cell_text::{push_cell, push_hex, state_fields};
use std::alloc::{AllocError as NoMemory, Global};

/// The part of a map that is asked for: a key, or any.
fn part_asked(key: Option<u64>) -> KeyAt
    ensures { result ≡ lines.part_asked key }
{
    match key {
        Some(key) => KeyAt::At(key),
        None => KeyAt::Rest,
    }
}

/// Appends the cell that is asked for.
fn push_asked(out: &mut String, spec: &Spec, asked: SliceCell) -> Result<(), NoMemory>
    ensures { OnOk result (string_bytes out.new ≡ string_bytes out.old ++ lines.asked_text (specification spec.now) asked) }
{
    match state_fields(spec).get(asked.field as usize) {
        Some(field) => push_cell(out, spec, field, part_asked(asked.key)),
        None => Ok(()),
    }
}

/// Appends an address, in eight hex digits.
#[tactic(auto, unfolding(crate::specs::Writing::address_text))]
fn push_at(out: &mut String, at: u32) -> Result<(), NoMemory>
    ensures { OnOk result (string_bytes out.new ≡ string_bytes out.old ++ lines.address_text at) }
{
    push_hex(out, 8, u64::from(at))
}

/// Appends the line that says what is asked.
fn push_head(out: &mut String, spec: &Spec, at: u32, asked: SliceCell) -> Result<(), NoMemory>
    ensures { OnOk result (string_bytes out.new ≡ string_bytes out.old ++ lines.head_line (specification spec.now) at asked) }
{
    out.push_str("slice ")?;
    push_at(out, at)?;
    out.push_str(" ")?;
    push_asked(out, spec, asked)?;
    out.push_str("\n")
}

/// Appends the line of the entry, if some cells come from it.
fn push_entry(out: &mut String, entry: bool) -> Result<(), NoMemory>
    ensures { OnOk result (string_bytes out.new ≡ string_bytes out.old ++ lines.entry_line entry) }
{
    if entry {
        out.push_str("entry\n")
    } else {
        Ok(())
    }
}

/// Appends the line of an address.
fn push_address(out: &mut String, at: u32) -> Result<(), NoMemory>
    ensures { OnOk result (string_bytes out.new ≡ string_bytes out.old ++ lines.address_line at) }
{
    push_at(out, at)?;
    out.push_str("\n")
}

/// Appends a line for each address.
fn push_addresses(out: &mut String, addresses: &[u32]) -> Result<(), NoMemory>
    ensures { OnOk result (string_bytes out.new ≡ string_bytes out.old ++ lines.address_lines addresses.now) }
{
    for at in addresses {
        push_address(out, *at)?;
    }
    Ok(())
}

/// The text of a slice for the reads of a cell by the instruction at an address.
pub fn slice_text(
    alloc: Global,
    spec: &Spec,
    at: u32,
    asked: SliceCell,
    slice: &Slice,
) -> Result<String, NoMemory>
    ensures { IfOk result (λ r. string_bytes r ≡ lines.slice_text (specification spec.now) at asked slice.now.entry slice.now.at.items) }
{
    let mut out = String::new(alloc);
    push_head(&mut out, spec, at, asked)?;
    push_entry(&mut out, slice.entry)?;
    push_addresses(&mut out, &slice.at)?;
    Ok(out)
}
