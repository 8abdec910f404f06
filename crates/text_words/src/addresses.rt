//! Addresses, read from their texts.

ghost use Rattle.std.specs.Prelude.{◌≡◌, IfOk, nat_lt};
ghost use Rattle.std.specs.Option.{option_copied};
ghost use Rattle.base_trait.specs.Lists.{items_of};
ghost use Rattle.text_words.specs.Pieces.{next_item};
ghost use Rattle.text_words.specs.Reading as reading;

use crate::numbers::number_in;
use crate::pieces::first_piece;
use std::alloc::{AllocError as NoMemory, Global};

/// The address that a text is: 8 hex digits.
pub(crate) fn address_in(text: &[u8]) -> Option<u32>
    ensures { result ≡ reading.number_in 32 text.now }
{
    match number_in(32, text) {
        Some(number) => Some(number as u32),
        None => None,
    }
}

/// The address that a text is, where it comes behind the last one.
fn next_address(last: Option<u32>, text: &[u8]) -> Option<u32>
    ensures { result ≡ next_item nat_lt last (reading.number_in 32 text.now) }
{
    let address = address_in(text)?;
    match last {
        Some(last) if last >= address => None,
        _ => Some(address),
    }
}

/// The addresses that a text is: one or more, ascending, with a space between.
pub fn addresses_in(alloc: Global, text: &[u8]) -> Result<Option<Vec<u32>>, NoMemory>
    ensures { IfOk result (λ r. items_of r ≡ reading.addresses_in text.now) }
{
    let mut addresses = Vec::new(alloc);
    let mut last = None;
    let mut left = Some(text);
    while let Some(rest) = left {
        let (piece, others) = first_piece(b' ', rest);
        let Some(address) = next_address(last, piece) else {
            return Ok(None);
        };
        addresses.push(address)?;
        last = Some(address);
        left = others;
    }
    Ok(Some(addresses))
}
