//! Sets of numbers, read from their texts.

ghost use Rattle.std.specs.Prelude.{◌≡◌, ◌<◌, ◌≤◌, ◌^◌, ◌++◌, [], ◌∷◌, IfOk, IfSome, Some, nat_lt, option_map};
ghost use Rattle.std.specs.Option.{option_and_then, option_copied};
ghost use Rattle.word_operations.specs.Width.{IsWidth};
ghost use Rattle.base_trait.specs.Lists.{Each};
ghost use Rattle.base_kset.specs.Meaning.{Fits};
ghost use Rattle.base_kset.specs.Sets.{bounded, items_or_none};
ghost use Rattle.text_words.specs.Pieces.{next_item};
ghost use Rattle.text_words.specs.Reading as reading;

use crate::numbers::{before, number_in, text_behind};
use crate::pieces::first_piece;
use crate::reading::is_any;
use base_kset::{KSet, Set};
use base_trait::Base;
use std::alloc::{AllocError as NoMemory, Global};

/// The number of a width in bits that a text is, where it is greater than the last one.
fn next_number(w: u32, last: u64, text: &[u8]) -> Option<u64>
    ensures value { result ≡ next_item nat_lt (Some last) (reading.number_in w text.now) }
    ensures below { IfSome result (λ n. n < 2 ^ w) }
    ensures greater { IfSome result (λ n. last < n) }
{
    let number = number_in(w, text)?;
    if last < number { Some(number) } else { None }
}

/// The set with a number that is greater than all of its numbers; any, where these are then more than `K`.
fn with_greatest<const K: usize>(
    alloc: Global,
    w: u32,
    set: &Set<K>,
    number: u64,
) -> Result<Set<K>, NoMemory>
    requires width { IsWidth w }
    requires set { Fits K w set.now }
    requires number { number < 2 ^ w }
    requires greatest { Each (λ n. n < number) (items_or_none set.now) }
    ensures value { IfOk result (λ r. r ≡ option_and_then (λ s. bounded K (s ++ number ∷ [])) set.now) }
    ensures fits { IfOk result (λ r. Fits K w r) }
    ensures greatest { IfOk result (λ r. Each (λ n. n ≤ number) (items_or_none r)) }
{
    let one = KSet::<K>::constant(alloc, &(), w, number)?;
    KSet::<K>::join(alloc, &(), w, set, &one)
}

/// The set of numbers that ascend, with commas between.
pub(crate) fn listed_in<const K: usize>(
    alloc: Global,
    w: u32,
    text: &[u8],
) -> Result<Option<Set<K>>, NoMemory>
    ensures { IfOk result (λ r. r ≡ option_map Some (option_and_then (bounded K) (reading.numbers_in w text.now))) }
{
    let (piece, mut left) = first_piece(b',', text);
    let Some(first) = number_in(w, piece) else {
        return Ok(None);
    };
    let mut set = KSet::<K>::constant(alloc, &(), w, first)?;
    let mut last = first;
    while let Some(rest) = left {
        let (piece, others) = first_piece(b',', rest);
        let Some(number) = next_number(w, last, piece) else {
            return Ok(None);
        };
        set = with_greatest(alloc, w, &set, number)?;
        last = number;
        left = others;
    }
    if set.is_any() {
        Ok(None)
    } else {
        Ok(Some(set))
    }
}

/// The text in braces.
pub(crate) fn text_in_braces(text: &[u8]) -> Option<&[u8]>
    ensures { option_copied result ≡ reading.braced text.now }
{
    before(b"}", text_behind(b"{", text)?)
}

/// A set of 1 to `K` numbers in braces, ascending, or `any`.
pub(crate) fn set_in<const K: usize>(
    alloc: Global,
    w: u32,
    text: &[u8],
) -> Result<Option<Set<K>>, NoMemory>
    ensures { IfOk result (λ r. r ≡ reading.set_in K w text.now) }
{
    if is_any(w, text) {
        return Ok(Some(KSet::<K>::any(alloc, &(), w)?));
    }
    match text_in_braces(text) {
        Some(numbers) => listed_in(alloc, w, numbers),
        None => Ok(None),
    }
}
