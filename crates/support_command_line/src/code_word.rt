//! The word CODE.

ghost use Rattle.std.specs.Prelude.{◌≡◌, ◌∷◌, ◌++◌, [], map, option_map};
ghost use Rattle.support_command_line.specs.Code.{code_parts, is_at, is_comma, part_at, part_in, parts_after, parts_from};
ghost use Rattle.support_command_line.specs.Giving.{Gives};
ghost use Rattle.support_command_line.specs.Views.{borrowed, part_of};
ghost use Rattle.std.specs.List.{list_any, slice_split};
ghost use Rattle.std.specs.Prelude.{IfOk};

use crate::numbers::address;
use crate::orders::Order;
use crate::words_error::WordsError;
use std::alloc::{AllocError, Global};

/// How many parts code has at most.
const MOST_PARTS: usize = 16;

/// A part of the code: the bytes of an input, from a base address on.
#[derive(Clone, Copy)]
pub struct CodePart<'a> {
    pub name: &'a str,
    pub base: u32,
}

/// Code: its parts, in the order in which the words name them, and the order of the bytes in its words.
#[derive(Drop)]
pub struct Code<'a> {
    pub parts: Vec<CodePart<'a>>,
    pub order: Order,
}

/// The parts of a word CODE, of which the first stands at this base address.
pub fn code_parts<'a>(
    alloc: Global,
    word: &'a str,
    base: u32,
) -> Result<Vec<CodePart<'a>>, WordsError>
    ensures { Gives (code_parts base word.entry.now) (λ parts. map part_of parts.items) result }
{
    let pieces = pieces(alloc, word)?;
    if pieces.len() > MOST_PARTS {
        return Err(WordsError::BadWords);
    }
    parts_from(alloc, pieces.as_slice(), base)
}

/// The pieces of a word between its commas.
fn pieces<'a>(alloc: Global, word: &'a str) -> Result<Vec<&'a str>, AllocError>
    ensures { IfOk result (λ pieces. borrowed pieces.items ≡ slice_split is_comma word.entry.now) }
{
    word.split(',').collect(alloc)
}

/// The parts of pieces of which the first stands at the base address.
fn parts_from<'a>(
    alloc: Global,
    pieces: &[&'a str],
    base: u32,
) -> Result<Vec<CodePart<'a>>, WordsError>
    ensures { Gives (parts_from base (borrowed pieces.now)) (λ parts. map part_of parts.items) result }
{
    let [first, others @ ..] = pieces else {
        return Err(WordsError::BadWords);
    };
    parts(alloc, part_at(first, base), others)
}

/// The first part, and those of pieces that each name their address.
fn parts<'a>(
    alloc: Global,
    first: Option<CodePart<'a>>,
    others: &[&'a str],
) -> Result<Vec<CodePart<'a>>, WordsError>
    ensures { Gives (parts_after (option_map part_of first.entry) (borrowed others.now)) (λ parts. map part_of parts.items) result }
{
    let mut parts = pushed(Vec::new(alloc), first)?;
    for piece in others {
        parts = pushed(parts, part(piece))?;
    }
    Ok(parts)
}

/// The parts with one more, where it is there. They are taken by value, so that a caller holds none of them.
fn pushed<'a>(
    mut parts: Vec<CodePart<'a>>,
    next: Option<CodePart<'a>>,
) -> Result<Vec<CodePart<'a>>, WordsError>
    ensures { Gives (option_map (λ next. parts.entry.items ++ next ∷ []) next.entry) (λ parts. parts.items) result }
{
    let Some(next) = next else {
        return Err(WordsError::BadWords);
    };
    parts.push(next)?;
    Ok(parts)
}

/// The part of a piece `NAME@HEX`.
fn part<'a>(piece: &'a str) -> Option<CodePart<'a>>
    ensures { option_map part_of result ≡ part_in piece.entry.now }
{
    let (name, digits) = piece.split_once('@')?;
    part_at(name, address(digits)?)
}

/// The part of a name at an address, where it is a name.
fn part_at<'a>(name: &'a str, base: u32) -> Option<CodePart<'a>>
    ensures { option_map part_of result ≡ part_at name.entry.now base }
{
    if name.is_empty() || name.contains('@') {
        return None;
    }
    Some(CodePart { name, base })
}
