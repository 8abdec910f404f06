//! Which rows a decision may choose.

ghost use Rattle.std.specs.Prelude.{◌≡◌, ℕ, ◌<◌, ◌==◌, ◌||◌, true, false, map, length, slice_index_or, IfOk, MatchOption};
ghost use Rattle.spec_match_compiler.specs.Decisions.{trees};
ghost use Rattle.spec_match_compiler.specs.Names.{names, some_names};
ghost use Rattle.spec_match_compiler.specs.Views.{tree};

use crate::decision::Decision;
use std::alloc::{AllocError, Global};

/// Marks a row, where there is a mark for it.
fn mark(row: u32, marks: &mut [bool])
    ensures { (r : ℕ) → r < length marks.old
        → slice_index_or marks.new r false ≡ (slice_index_or marks.old r false || row == r) }
{
    let row = row as usize;
    if row < marks.len() {
        marks[row] = true;
    }
}

/// Marks each row that a decision may choose, where there is a mark for it.
///
/// It goes on in a loop where an answer is no, and calls itself for the others.
#[cycle(mark_named)]
fn mark_named(decision: &Decision, marks: &mut [bool])
    ensures { (r : ℕ) → r < length marks.old
        → slice_index_or marks.new r false ≡ (slice_index_or marks.old r false || names (tree decision.now) r) }
{
    let mut rest = decision;
    loop {
        match rest {
            Decision::Row { row, .. } => return mark(*row, marks),
            Decision::OnCase { arms, .. } => return mark_some_named(arms, marks),
            Decision::OnWord { yes, no, .. } | Decision::OnFlag { yes, no, .. } => {
                mark_named(yes, marks);
                rest = no;
            }
        }
    }
}

#[cycle(mark_named)]
fn mark_some_named(arms: &[Decision], marks: &mut [bool])
    ensures { (r : ℕ) → r < length marks.old
        → slice_index_or marks.new r false ≡ (slice_index_or marks.old r false || some_names (trees (map tree arms.now)) r) }
{
    for arm in arms {
        mark_named(arm, marks);
    }
}

/// The first row below `count` that a decision can't choose.
pub fn first_unnamed(
    alloc: Global,
    decision: &Decision,
    count: u32,
) -> Result<Option<u32>, AllocError>
    ensures { IfOk result (λ first. MatchOption first
        ((r : ℕ) → r < count → names (tree decision.now) r ≡ true)
        (λ row. (row < count) × (names (tree decision.now) row ≡ false) × ((r : ℕ) → r < row → names (tree decision.now) r ≡ true))) }
{
    let mut marks = vec![in alloc; false; count as usize]?;
    mark_named(decision, &mut marks);
    for row in 0..count {
        if !marks[row as usize] {
            return Ok(Some(row));
        }
    }
    Ok(None)
}
