//! Decode rows in groups, by the bits that all rows of a group fix.

ghost use Rattle.std.specs.Prelude.{◌≡◌, ℕ, map, not, IfOk, IfSome, false};
ghost use Rattle.semantics.specs.Decode.{row_met};
ghost use Rattle.spec_ir.specs.Views.{row_of};
ghost use Rattle.code_image.specs.Tree as spec;
ghost use Rattle.code_image.specs.Tree.{IsMissed, LosesNone, picked};
ghost use Rattle.code_image.specs.Views.{tree};

use crate::bits::{fixed_bit, has_bit};
use spec_ir::Row;
use std::alloc::{AllocError, Global};

/// How many bits a word has.
pub(crate) const WORD_BITS: u32 = 32;

/// The numbers of rows, ascending; or a bit by which they are told apart, with the rows that words without it may
/// meet, and those that words with it may meet.
#[derive(Debug, Drop)]
pub(crate) enum Tree {
    Group(Vec<usize>),
    Fork(u32, Box<Tree>, Box<Tree>),
}

impl Tree {
    /// The numbers of the rows that a word may meet.
    pub(crate) fn group_at(&self, word: u32) -> &[usize]
        ensures { result.now ≡ spec.group_at word (tree self.now) }
    {
        match self {
            Tree::Group(numbers) => numbers,
            Tree::Fork(bit, without, with) => {
                if has_bit(u64::from(word), *bit) {
                    with.group_at(word)
                } else {
                    without.group_at(word)
                }
            }
        }
    }
}

/// The numbers of all rows.
pub(crate) fn all_rows(alloc: Global, rows: &[Row]) -> Result<Vec<usize>, AllocError>
    ensures { IfOk result (λ r. picked (map row_of rows.now) r.items ≡ map row_of rows.now) }
{
    let mut out = Vec::new(alloc);
    for i in 0..rows.len() {
        out.push(i)?;
    }
    Ok(out)
}

/// The tree of a group of rows. It asks for at most `depth` bits of a word.
pub(crate) fn grow(
    alloc: Global,
    rows: &[Row],
    group: Vec<usize>,
    depth: u32,
) -> Result<Tree, AllocError>
    ensures { IfOk result (λ t. LosesNone (map row_of rows.now) (tree t) (picked (map row_of rows.now) group.items)) }
{
    if depth == 0 {
        return Ok(Tree::Group(group));
    }
    match telling_bit(rows, &group) {
        None => Ok(Tree::Group(group)),
        Some(bit) => {
            let without = part_of(alloc, rows, &group, bit, false)?;
            let with = part_of(alloc, rows, &group, bit, true)?;
            let without = Box::new(alloc, grow(alloc, rows, without, depth - 1)?)?;
            let with = Box::new(alloc, grow(alloc, rows, with, depth - 1)?)?;
            Ok(Tree::Fork(bit, without, with))
        }
    }
}

/// The first bit that all rows of a group fix, some to 0 and some to 1.
fn telling_bit(rows: &[Row], group: &[usize]) -> Option<u32> {
    for bit in 0..WORD_BITS {
        if tells(rows, group, bit) {
            return Some(bit);
        }
    }
    None
}

/// Whether all rows of a group fix a bit, some to 0 and some to 1.
fn tells(rows: &[Row], group: &[usize], bit: u32) -> bool {
    let (mut zeros, mut ones) = (false, false);
    for number in group {
        match fixed_by(rows, *number, bit) {
            Some(true) => ones = true,
            Some(false) => zeros = true,
            None => return false,
        }
    }
    zeros && ones
}

/// The value that a row fixes at a bit, where it does: no word with another value meets it.
fn fixed_by(rows: &[Row], number: usize, bit: u32) -> Option<bool>
    ensures { IfSome result (λ value. IsMissed (map row_of rows.now) number bit (not value)) }
{
    let row = rows.get(number)?;
    fixed_bit(&row.parts, bit)
}

/// The rows of a group that words with this value at a bit may meet.
fn part_of(
    alloc: Global,
    rows: &[Row],
    group: &[usize],
    bit: u32,
    value: bool,
) -> Result<Vec<usize>, AllocError>
    ensures { IfOk result (λ r. (code : ℕ) → spec.bit code bit ≡ value
        → row_met code (picked (map row_of rows.now) r.items) ≡ row_met code (picked (map row_of rows.now) group.now)) }
{
    let mut out = Vec::new(alloc);
    for number in group {
        if may_have(rows, *number, bit, value) {
            out.push(*number)?;
        }
    }
    Ok(out)
}

/// Whether words with this value at a bit may meet a row.
fn may_have(rows: &[Row], number: usize, bit: u32, value: bool) -> bool
    ensures { result ≡ false → IsMissed (map row_of rows.now) number bit value }
{
    match fixed_by(rows, number, bit) {
        Some(fixed) => fixed == value,
        None => true,
    }
}
