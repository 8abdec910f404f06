//! The head of a table.

ghost use Rattle.std.specs.Prelude.{◌≡◌, ◌++◌, ◌<◌, OnOk, length};
ghost use Rattle.std.specs.String.{string_bytes};
ghost use Rattle.text_tables.specs.Heads as lines;

use code_image::{Image, Order};
use std::alloc::AllocError as NoMemory;
use text_words::push_number;

/// Appends the line of the order of the bytes of a word.
pub fn push_order(out: &mut String, order: Order) -> Result<(), NoMemory>
    ensures { OnOk result (string_bytes out.new ≡ string_bytes out.old ++ lines.order_line order) }
{
    match order {
        Order::Big => out.push_str("order big\n"),
        Order::Little => out.push_str("order little\n"),
    }
}

/// Appends the line of a segment: its base, and its length in bytes.
pub fn push_segment(out: &mut String, base: u32, words: u32) -> Result<(), NoMemory>
    ensures { OnOk result (string_bytes out.new ≡ string_bytes out.old ++ lines.code_line base words) }
{
    out.push_str("code ")?;
    push_number(out, 32, u64::from(base))?;
    writeln!(out, " {}", 4 * u64::from(words))
}

/// Appends the lines of the segments of an image.
fn push_segments(out: &mut String, image: &Image) -> Result<(), NoMemory>
    ensures { OnOk result (string_bytes out.new ≡ string_bytes out.old ++ lines.code_lines image.now.segments) }
{
    for i in 0..image.segments() {
        push_segment(out, image.base_at(i), image.words_at(i))?;
    }
    Ok(())
}

/// Appends the lines of the format and the base.
fn push_first(out: &mut String, base: &str) -> Result<(), NoMemory>
    ensures { OnOk result (string_bytes out.new ≡ string_bytes out.old ++ lines.first_lines base.now) }
{
    out.push_str("tsl-table 2\nbase ")?;
    out.push_str(base)?;
    out.push_str("\n")?;
    Ok(())
}

/// Appends the lines before the blocks.
pub(crate) fn push_head(out: &mut String, base: &str, image: &Image) -> Result<(), NoMemory>
    ensures { OnOk result (string_bytes out.new ≡ string_bytes out.old ++ lines.head base.now image.now) }
{
    push_first(out, base)?;
    push_order(out, image.order())?;
    push_segments(out, image)
}
