//! Blocks.

ghost use Rattle.std.specs.Prelude.{◌≡◌, ◌++◌, OnOk, map};
ghost use Rattle.std.specs.Option.{option_copied};
ghost use Rattle.std.specs.String.{string_bytes};
ghost use Rattle.spec_ir.specs.Views.{specification};
ghost use Rattle.base_trait.specs.Uses.{seen};
ghost use Rattle.fixpoint_theory.specs.Views.{listing};
ghost use Rattle.state_cell_text.specs.Places as places;
ghost use Rattle.text_elements.specs.Parts.{Appended};
ghost use Rattle.text_tables.specs.Blocks as lines;

use base_trait::Use;
use fixpoint_theory::Block;
use semantics_values::KeyAt;
use spec_ir::{Spec, Ty};
use state_cell_text::{push_cell, state_fields};
use std::alloc::AllocError as NoMemory;
use syntax_lexer::Text;
use text_elements::{WriteElement, append_element};
use text_words::{push_number, push_spaced, push_stamps};

/// Appends the line of addresses behind a word; nothing, where there are none.
fn push_addresses(out: &mut String, what: &str, addresses: &[u32]) -> Result<(), NoMemory>
    ensures { OnOk result (string_bytes out.new ≡ string_bytes out.old ++ lines.addresses_line what.now addresses.now) }
{
    if addresses.is_empty() {
        return Ok(());
    }
    out.push_str(what)?;
    push_spaced(out, addresses)?;
    out.push_str("\n")
}

/// Whether a type is a map type.
fn is_map(ty: Ty, map: u32) -> bool
    ensures { result ≡ lines.is_map map ty }
{
    match ty {
        Ty::Map(m) => m == map,
        _ => false,
    }
}

/// The first field of a map type.
fn field_of_map(fields: &[(Text, Ty)], map: u32) -> Option<&(Text, Ty)>
    ensures { option_copied result ≡ lines.field_of_map map fields.now }
{
    for field in fields {
        if is_map(field.1, map) {
            return Some(field);
        }
    }
    None
}

/// The part of a map that was read: a key, or any.
fn part_read(key: Option<u64>) -> KeyAt
    ensures { result ≡ lines.part_read key }
{
    match key {
        Some(key) => KeyAt::At(key),
        None => KeyAt::Rest,
    }
}

/// Appends the line of a use.
pub fn push_use(out: &mut String, spec: &Spec, of: &Use) -> Result<(), NoMemory>
    ensures { OnOk result (string_bytes out.new ≡ string_bytes out.old ++ lines.use_line (specification spec.now) (seen of.now)) }
{
    let Some(field) = field_of_map(state_fields(spec), of.map) else {
        return Ok(());
    };
    out.push_str("use ")?;
    push_cell(out, spec, field, part_read(of.key))?;
    push_stamps(out, &of.from)?;
    out.push_str("\n")
}

/// Appends the lines of uses.
fn push_uses(out: &mut String, spec: &Spec, uses: &[Use]) -> Result<(), NoMemory>
    ensures { OnOk result (string_bytes out.new ≡ string_bytes out.old ++ lines.use_lines (specification spec.now) (map seen uses.now)) }
{
    for of in uses {
        push_use(out, spec, of)?;
    }
    Ok(())
}

/// Appends what stands behind the element of a block: the uses, the next addresses, and the exits.
fn push_end<E>(out: &mut String, spec: &Spec, block: &Block<E>) -> Result<(), NoMemory>
    ensures { OnOk result (string_bytes out.new ≡ string_bytes out.old ++ lines.end_lines (specification spec.now) (map seen block.now.uses.items)
        block.now.next.items block.now.exits.items) }
{
    push_uses(out, spec, &block.uses)?;
    push_addresses(out, "next", &block.next)?;
    push_addresses(out, "exit", &block.exits)
}

/// Appends the line of the address of a block.
fn push_at(out: &mut String, at: u32) -> Result<(), NoMemory>
    ensures { OnOk result (string_bytes out.new ≡ string_bytes out.old ++ lines.at_line at) }
{
    out.push_str("at ")?;
    push_number(out, 32, u64::from(at))?;
    out.push_str("\n")
}

/// Appends a block.
pub(crate) fn push_block<D: WriteElement>(
    out: &mut String,
    spec: &Spec,
    at: u32,
    block: &Block<D::Element>,
) -> Result<(), NoMemory>
    ensures { OnOk result (Appended (lines.IsBlock (D.IsText (specification spec.now)) (specification spec.now) at (listing (λ x. x) block.now))
        (string_bytes out.old) (string_bytes out.new)) }
{
    push_at(out, at)?;
    append_element::<D>(out, spec, &block.elem)?;
    push_end::<D::Element>(out, spec, block)
}
