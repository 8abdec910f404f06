//! Notes, read from their texts.

ghost use Rattle.std.specs.Prelude.{◌≡◌, IfOk, IfSome, is_some};
ghost use Rattle.base_trait.specs.Lists.{items_of};
ghost use Rattle.base_trait.specs.Stamps.{AreAscending, is_before};
ghost use Rattle.code_image.specs.Image.{code_at};
ghost use Rattle.text_words.specs.Pieces.{items_in, next_item, pieces};
ghost use Rattle.text_words.specs.Reading as reading;

use crate::addresses::address_in;
use crate::numbers::text_behind;
use crate::pieces::first_piece;
use base_trait::Stamp;
use code_image::Image;
use state_cell_text::same;
use std::alloc::{AllocError as NoMemory, Global};

/// A note that tells nothing has no text.
pub(crate) fn nothing_in(text: &[u8]) -> Option<()>
    ensures { result ≡ reading.nothing_in text.now }
{
    if text.is_empty() { Some(()) } else { None }
}

/// The stamp that a text is: `entry`, or the address of a code word.
fn stamp_in(image: &Image, text: &[u8]) -> Option<Stamp>
    ensures { result ≡ reading.stamp_in (λ a. is_some (code_at image.now a)) text.now }
{
    if same(text, b"entry") {
        return Some(Stamp::Entry);
    }
    let address = address_in(text)?;
    let _word = image.fetch(address)?;
    Some(Stamp::At(address))
}

/// The stamp that a text is, where it comes behind the last one.
fn next_stamp(image: &Image, last: Option<Stamp>, text: &[u8]) -> Option<Stamp>
    ensures { result ≡ next_item is_before last (reading.stamp_in (λ a. is_some (code_at image.now a)) text.now) }
{
    let stamp = stamp_in(image, text)?;
    match last {
        Some(last) if !last.is_before(stamp) => None,
        _ => Some(stamp),
    }
}

/// The stamps that a text is: one or more, each behind the one before, with commas between.
fn listed_in(alloc: Global, image: &Image, text: &[u8]) -> Result<Option<Vec<Stamp>>, NoMemory>
    ensures { IfOk result (λ r. items_of r ≡ items_in is_before (reading.stamp_in (λ a. is_some (code_at image.now a))) None (pieces 44 text.now)) }
{
    let mut stamps = Vec::new(alloc);
    let mut last = None;
    let mut left = Some(text);
    while let Some(rest) = left {
        let (piece, others) = first_piece(b',', rest);
        let Some(stamp) = next_stamp(image, last, piece) else {
            return Ok(None);
        };
        stamps.push(stamp)?;
        last = Some(stamp);
        left = others;
    }
    Ok(Some(stamps))
}

/// The stamps that stand behind ` from `: one or more, `entry` first, then addresses of code words, ascending.
pub fn stamps_in(alloc: Global, image: &Image, text: &[u8]) -> Result<Option<Vec<Stamp>>, NoMemory>
    ensures value { IfOk result (λ r. items_of r ≡ reading.stamps_in (λ a. is_some (code_at image.now a)) text.now) }
    ensures ascending { IfOk result (λ r. IfSome r (λ stamps. AreAscending stamps.items)) }
{
    match text_behind(b" from ", text) {
        Some(stamps) => listed_in(alloc, image, stamps),
        None => Ok(None),
    }
}
