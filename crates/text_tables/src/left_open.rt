//! Tables that are left open.

ghost use Rattle.std.specs.Prelude.{◌≡◌, ◌++◌, IfOk, OnOk};
ghost use Rattle.std.specs.String.{string_bytes};
ghost use Rattle.spec_ir.specs.Views.{specification};
ghost use Rattle.fixpoint_theory.specs.Views.{listing, listings};
ghost use Rattle.fixpoint_open_tables.specs.Endings.{ends_in};
ghost use Rattle.text_elements.specs.Parts.{Appended};
ghost use Rattle.text_tables.specs.Open.{AreOpenBlocks, IsOpenAt, IsOpenBlock, IsOpenTableText, ending_text, open_line, undecodable_line};

use crate::blocks::push_block;
use crate::head::push_head;
use base_trait::Base;
use code_image::Image;
use fixpoint_open_tables::{Ending, Endings};
use fixpoint_theory::{Block, Table};
use spec_ir::Spec;
use std::alloc::{AllocError as NoMemory, Global};
use text_elements::{WriteElement, append_word};
use text_words::push_number;

/// Appends the last line of a block whose code word has no decoding.
fn push_undecodable(out: &mut String, word: u32) -> Result<(), NoMemory>
    ensures { OnOk result (string_bytes out.new ≡ string_bytes out.old ++ undecodable_line word) }
{
    out.push_str("undecodable ")?;
    push_number(out, 32, u64::from(word))?;
    out.push_str("\n")
}

/// Appends the last line of a block whose instruction may lead to too many addresses.
fn push_open<D: WriteElement>(
    out: &mut String,
    shown: &<D::B as Base>::Word,
) -> Result<(), NoMemory>
    ensures { OnOk result (string_bytes out.new ≡ string_bytes out.old ++ open_line D.word_text shown.now) }
{
    out.push_str("open ")?;
    append_word::<D>(out, 32, shown)?;
    out.push_str("\n")
}

/// Appends the last line of the block of an address that is left open; nothing, where it is not.
fn push_ending<D: WriteElement>(
    out: &mut String,
    at: u32,
    endings: &Endings<<D::B as Base>::Word>,
) -> Result<(), NoMemory>
    ensures { OnOk result (string_bytes out.new ≡ string_bytes out.old ++ ending_text D.word_text (ends_in endings.now at)) }
{
    match endings.get(at) {
        Some(Ending::Undecodable { word }) => push_undecodable(out, *word),
        Some(Ending::Open { shown }) => push_open::<D>(out, shown),
        None => Ok(()),
    }
}

/// Appends a block with its ending.
fn push_open_block<D: WriteElement>(
    out: &mut String,
    spec: &Spec,
    at: u32,
    block: &Block<D::Element>,
    endings: &Endings<<D::B as Base>::Word>,
) -> Result<(), NoMemory>
    ensures { OnOk result (Appended (IsOpenBlock D.word_text (D.IsText (specification spec.now)) (specification spec.now) at
        (listing (λ x. x) block.now) (ends_in endings.now at)) (string_bytes out.old) (string_bytes out.new)) }
{
    push_block::<D>(out, spec, at, block)?;
    push_ending::<D>(out, at, endings)?;
    Ok(())
}

/// Appends the block of an address with its ending, where it is listed.
fn push_listed<D: WriteElement>(
    out: &mut String,
    spec: &Spec,
    at: u32,
    table: &Table<D::Element>,
    endings: &Endings<<D::B as Base>::Word>,
) -> Result<(), NoMemory>
    ensures { OnOk result (Appended (IsOpenAt D.word_text (D.IsText (specification spec.now)) (specification spec.now) at
        (listings (λ x. x) table.now at) (ends_in endings.now at)) (string_bytes out.old) (string_bytes out.new)) }
{
    match table.blocks.get(&at) {
        Some(block) => push_open_block::<D>(out, spec, at, block, endings),
        None => Ok(()),
    }
}

/// Appends the blocks of addresses, in their order.
fn push_blocks<D: WriteElement>(
    out: &mut String,
    spec: &Spec,
    addresses: &[u32],
    table: &Table<D::Element>,
    endings: &Endings<<D::B as Base>::Word>,
) -> Result<(), NoMemory>
    ensures { OnOk result (Appended (AreOpenBlocks D.word_text (D.IsText (specification spec.now)) (specification spec.now)
        (listings (λ x. x) table.now) (ends_in endings.now) addresses.now) (string_bytes out.old) (string_bytes out.new)) }
{
    for at in addresses {
        push_listed::<D>(out, spec, *at, table, endings)?;
    }
    Ok(())
}

/// Appends a table.
fn push_table<D: WriteElement>(
    alloc: Global,
    out: &mut String,
    spec: &Spec,
    image: &Image,
    base: &str,
    table: &Table<D::Element>,
    endings: &Endings<<D::B as Base>::Word>,
) -> Result<(), NoMemory>
    ensures { OnOk result (Appended (IsOpenTableText D.word_text (D.IsText (specification spec.now)) (specification spec.now) image.now base.now
        (listings (λ x. x) table.now) (ends_in endings.now)) (string_bytes out.old) (string_bytes out.new)) }
{
    push_head(out, base, image)?;
    let addresses = image.addresses(alloc)?;
    push_blocks::<D>(out, spec, &addresses, table, endings)?;
    Ok(())
}

/// The text of a table of an image that is left open: as `table_text`, and behind each block that is left open a line that says why.
pub fn open_table_text<D: WriteElement>(
    alloc: Global,
    spec: &Spec,
    image: &Image,
    base: &str,
    table: &Table<D::Element>,
    endings: &Endings<<D::B as Base>::Word>,
) -> Result<Vec<u8>, NoMemory>
    ensures { IfOk result (λ r. IsOpenTableText D.word_text (D.IsText (specification spec.now)) (specification spec.now) image.now base.now
        (listings (λ x. x) table.now) (ends_in endings.now) r.items) }
{
    let mut out = String::new(alloc);
    push_table::<D>(alloc, &mut out, spec, image, base, table, endings)?;
    Ok(out.into_bytes())
}
