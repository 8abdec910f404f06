//! The lines of next addresses and of exits.

ghost use Rattle.std.specs.Prelude.{◌≡◌, IfOk, codes, true};
ghost use Rattle.std.specs.List.{list_all};
ghost use Rattle.std.specs.Option.{option_and_then};
ghost use Rattle.base_trait.specs.Lists.{items_of};
ghost use Rattle.text_words.specs.Reading as reading;
ghost use Rattle.text_table_reader.specs.Ends as ends;
ghost use Rattle.text_table_reader.specs.Ends.{is_word_of};

use code_image::Image;
use std::alloc::{AllocError as NoMemory, Global};
use text_lines::LinesOf;
use text_words::{addresses_in, text_behind};

/// The addresses that a line names behind a word.
fn addresses_behind(alloc: Global, word: &[u8], line: &[u8]) -> Result<Option<Vec<u32>>, NoMemory>
    ensures { IfOk result (λ r. items_of r ≡ option_and_then reading.addresses_in (reading.behind word.now line.now)) }
{
    match text_behind(word, line) {
        Some(text) => addresses_in(alloc, text),
        None => Ok(None),
    }
}

/// Whether all are addresses of code words.
fn are_words(image: &Image, addresses: &[u32]) -> bool
    ensures { result ≡ list_all (is_word_of image.now) addresses.now }
{
    addresses.iter().all(|at| image.fetch(*at).is_some())
}

/// The next addresses that a line names.
fn next_said(alloc: Global, image: &Image, line: &[u8]) -> Result<Option<Vec<u32>>, NoMemory>
    ensures { IfOk result (λ r. items_of r ≡ ends.addresses_said (codes "next ") (is_word_of image.now) line.now) }
{
    match addresses_behind(alloc, b"next ", line)? {
        Some(addresses) => {
            if are_words(image, &addresses) {
                Ok(Some(addresses))
            } else {
                Ok(None)
            }
        }
        None => Ok(None),
    }
}

/// The exits that a line names.
#[tactic(auto, using(crate::proofs::AllKept::all_kept))]
fn exits_said(alloc: Global, line: &[u8]) -> Result<Option<Vec<u32>>, NoMemory>
    ensures { IfOk result (λ r. items_of r ≡ ends.addresses_said (codes "exit ") (λ a. true) line.now) }
{
    addresses_behind(alloc, b"exit ", line)
}

/// Reads the next addresses; none, where the first line names none.
pub(crate) fn read_next(
    alloc: Global,
    image: &Image,
    lines: &mut LinesOf<'_>,
) -> Result<Vec<u32>, NoMemory>
    ensures { IfOk result (λ r. (r.items, lines.new) ≡ ends.read_addresses (codes "next ") (is_word_of image.now) lines.old) }
{
    let Some((line, rest)) = lines.next() else {
        return Ok(Vec::new(alloc));
    };
    match next_said(alloc, image, line)? {
        Some(addresses) => {
            *lines = rest;
            Ok(addresses)
        }
        None => Ok(Vec::new(alloc)),
    }
}

/// Reads the exits; none, where the first line names none.
pub(crate) fn read_exits(alloc: Global, lines: &mut LinesOf<'_>) -> Result<Vec<u32>, NoMemory>
    ensures { IfOk result (λ r. (r.items, lines.new) ≡ ends.read_addresses (codes "exit ") (λ a. true) lines.old) }
{
    let Some((line, rest)) = lines.next() else {
        return Ok(Vec::new(alloc));
    };
    match exits_said(alloc, line)? {
        Some(addresses) => {
            *lines = rest;
            Ok(addresses)
        }
        None => Ok(Vec::new(alloc)),
    }
}
