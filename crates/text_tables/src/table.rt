//! Tables.

ghost use Rattle.std.specs.Prelude.{◌≡◌, ◌++◌, IfOk, OnOk};
ghost use Rattle.std.specs.String.{string_bytes};
ghost use Rattle.spec_ir.specs.Views.{specification};
ghost use Rattle.fixpoint_theory.specs.Views.{listings};
ghost use Rattle.text_elements.specs.Parts.{Appended};
ghost use Rattle.text_tables.specs.Tables.{AreBlocks, IsAt, IsTableText};

use crate::blocks::push_block;
use crate::head::push_head;
use code_image::Image;
use fixpoint_theory::Table;
use spec_ir::Spec;
use std::alloc::{AllocError as NoMemory, Global};
use text_elements::WriteElement;

/// Appends the block of an address, where it is listed.
fn push_listed<D: WriteElement>(
    out: &mut String,
    spec: &Spec,
    at: u32,
    table: &Table<D::Element>,
) -> Result<(), NoMemory>
    ensures { OnOk result (Appended (IsAt (D.IsText (specification spec.now)) (specification spec.now) at (listings (λ x. x) table.now at))
        (string_bytes out.old) (string_bytes out.new)) }
{
    match table.blocks.get(&at) {
        Some(block) => push_block::<D>(out, spec, at, block),
        None => Ok(()),
    }
}

/// Appends the blocks of addresses, in their order.
fn push_blocks<D: WriteElement>(
    out: &mut String,
    spec: &Spec,
    addresses: &[u32],
    table: &Table<D::Element>,
) -> Result<(), NoMemory>
    ensures { OnOk result (Appended (AreBlocks (D.IsText (specification spec.now)) (specification spec.now) (listings (λ x. x) table.now)
        addresses.now) (string_bytes out.old) (string_bytes out.new)) }
{
    for at in addresses {
        push_listed::<D>(out, spec, *at, table)?;
    }
    Ok(())
}

/// Appends a table.
fn push_table<D: WriteElement>(
    alloc: Global,
    out: &mut String,
    spec: &Spec,
    image: &Image,
    base: &str,
    table: &Table<D::Element>,
) -> Result<(), NoMemory>
    ensures { OnOk result (Appended (IsTableText (D.IsText (specification spec.now)) (specification spec.now) image.now base.now
        (listings (λ x. x) table.now)) (string_bytes out.old) (string_bytes out.new)) }
{
    push_head(out, base, image)?;
    let addresses = image.addresses(alloc)?;
    push_blocks::<D>(out, spec, &addresses, table)
}

/// The text of a table of an image: its head, with the name of its base, and the blocks of the code words that it lists. Blocks at
/// other addresses are left out; a table of an analysis has none.
pub fn table_text<D: WriteElement>(
    alloc: Global,
    spec: &Spec,
    image: &Image,
    base: &str,
    table: &Table<D::Element>,
) -> Result<Vec<u8>, NoMemory>
    ensures { IfOk result (λ r. IsTableText (D.IsText (specification spec.now)) (specification spec.now) image.now base.now
        (listings (λ x. x) table.now) r.items) }
{
    let mut out = String::new(alloc);
    push_table::<D>(alloc, &mut out, spec, image, base, table)?;
    Ok(out.into_bytes())
}
