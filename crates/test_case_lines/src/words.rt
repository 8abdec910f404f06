//! Words and notes of texts, made by the calls of a base.

ghost use Rattle.std.specs.Prelude.{IfOk, IfSome};
ghost use Rattle.word_operations.specs.Width.{IsWidth};

use super::numbers::{is_word, number};
use super::read::{Read, Unread, both};
use base_trait::Base;
use std::alloc::Global;

/// The word of a number in hex.
fn constant<B: Base>(alloc: Global, ctx: &B::Ctx, w: u32, text: &str) -> Read<B::Word>
    requires { IsWidth w }
    ensures { IfOk result (λ x. B.algebra.words.fits ctx.now w x) }
{
    match number(text) {
        Some(n) if is_word(w, n) => Ok(B::constant(alloc, ctx, w, n)?),
        _ => Err(Unread::No),
    }
}

/// The join of the words of numbers in hex, with a comma between.
fn set<B: Base>(alloc: Global, ctx: &B::Ctx, w: u32, numbers: &str) -> Read<B::Word>
    requires { IsWidth w }
    ensures { IfOk result (λ x. B.algebra.words.fits ctx.now w x) }
{
    let mut found = None;
    for text in numbers.split(',') {
        let (before, x) = both(found, constant::<B>(alloc, ctx, w, text))?;
        found = match before {
            Some(before) => Some(B::join(alloc, ctx, w, &before, &x)?),
            None => Some(x),
        };
    }
    found.ok_or(Unread::No)
}

/// The word of the numbers between two in hex.
fn range<B: Base>(alloc: Global, ctx: &B::Ctx, w: u32, low: &str, high: &str) -> Read<B::Word>
    requires { IsWidth w }
    ensures { IfOk result (λ x. B.algebra.words.fits ctx.now w x) }
{
    match (number(low), number(high)) {
        (Some(low), Some(high)) if low <= high && is_word(w, high) => {
            Ok(B::range(alloc, ctx, w, low, high)?)
        }
        _ => Err(Unread::No),
    }
}

/// The word of a text, of a width in bits.
pub fn word<B: Base>(alloc: Global, ctx: &B::Ctx, w: u32, text: &str) -> Read<B::Word>
    requires { IsWidth w }
    ensures { IfOk result (λ x. B.algebra.words.fits ctx.now w x) }
{
    if text == "any" {
        return Ok(B::any(alloc, ctx, w)?);
    }
    if let Some((low, high)) = text.split_once("..") {
        return range::<B>(alloc, ctx, w, low, high);
    }
    match text.strip_prefix("{").and_then(|t| t.strip_suffix("}")) {
        Some(numbers) => set::<B>(alloc, ctx, w, numbers),
        None => Err(Unread::No),
    }
}

/// The note of one stamp: `entry`, or an address in hex.
fn stamp<B: Base>(alloc: Global, text: &str) -> Read<B::Note> {
    if text == "entry" {
        return Ok(B::entry_note(alloc)?);
    }
    match u32::from_str_radix(text, 16) {
        Ok(at) => Ok(B::stamp_note(alloc, at)?),
        Err(_) => Err(Unread::No),
    }
}

/// The note of stamps, with a comma between.
pub fn note<B: Base>(alloc: Global, stamps: &str) -> Read<B::Note> {
    let mut found = None;
    for text in stamps.split(',') {
        let (before, more) = both(found, stamp::<B>(alloc, text))?;
        found = match before {
            Some(before) => Some(B::join_note(alloc, &before, &more)?),
            None => Some(more),
        };
    }
    found.ok_or(Unread::No)
}
