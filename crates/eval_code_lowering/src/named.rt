//! How many variables a decision names for each row, and their slots.

ghost use Rattle.std.specs.Prelude.{◌≡◌, ℕ, ◌<◌, ◌+◌, ◌==◌, ◌++◌, if◌then◌else◌, Some, None, map, length, slice_index_or, unwrap_or, IfOk, OnOk};
ghost use Rattle.spec_match_compiler.specs.Views.{tree};
ghost use Rattle.spec_match_compiler.specs.Decisions as plain;
ghost use Rattle.eval_code.specs.Lowered as of;
ghost use Rattle.eval_code.specs.Lowered.{first_some};
ghost use Rattle.eval_code_lowering.specs.Named.{AreNamed};

use spec_match_compiler::Decision;
use std::alloc::{AllocError as NoMemory, Global};

/// Notes how many variables a row has, where there is a place for it and nothing stands there yet.
fn note(row: u32, count: usize, named: &mut [Option<usize>])
    ensures { (r : ℕ) → r < length named.old
        → slice_index_or named.new r None ≡ first_some (slice_index_or named.old r None) (if row == r then Some count else None) }
{
    let row = row as usize;
    if row < named.len() && named[row].is_none() {
        named[row] = Some(count);
    }
}

/// Notes how many variables a decision names for each row, where it picks it first.
///
/// It goes on in a loop where an answer is no, and calls itself for the others.
#[cycle(named)]
fn note_named(by: &Decision, named: &mut [Option<usize>])
    ensures { (r : ℕ) → r < length named.old
        → slice_index_or named.new r None ≡ first_some (slice_index_or named.old r None) (of.named_first r (tree by.now)) }
{
    let mut rest = by;
    loop {
        match rest {
            Decision::Row { row, binds } => return note(*row, binds.len(), named),
            Decision::OnCase { arms, .. } => return note_named_in(arms, named),
            Decision::OnWord { yes, no, .. } | Decision::OnFlag { yes, no, .. } => {
                note_named(yes, named);
                rest = no;
            }
        }
    }
}

/// The same in the arms of a case.
#[cycle(named)]
fn note_named_in(arms: &[Decision], named: &mut [Option<usize>])
    ensures { (r : ℕ) → r < length named.old
        → slice_index_or named.new r None ≡ first_some (slice_index_or named.old r None) (of.named_first_in r (plain.trees (map tree arms.now))) }
{
    for arm in arms {
        note_named(arm, named);
    }
}

/// How many variables a decision names for each row below `count`, where it picks it first: of all rows in one walk.
pub fn names_of(alloc: Global, by: &Decision, count: usize) -> Result<Vec<Option<usize>>, NoMemory>
    ensures { IfOk result (λ r. AreNamed count (tree by.now) r.items) }
{
    let mut named = vec![in alloc; None; count]?;
    note_named(by, &mut named);
    Ok(named)
}

/// How many variables an arm has, of these numbers; 0 where there is none.
pub fn taken(named: &[Option<usize>], arm: usize) -> usize
    ensures { result ≡ unwrap_or (slice_index_or named.now arm None) 0 }
{
    match named.get(arm) {
        Some(Some(count)) => *count,
        Some(None) | None => 0,
    }
}

/// So many slots more, from the next one on; gives the one behind them.
pub fn push_slots(scope: &mut Vec<u32>, next: u32, count: usize) -> Result<u32, NoMemory>
    ensures slots { OnOk result (scope.new.items ≡ scope.old.items ++ of.slots_from next count) }
    ensures next { IfOk result (λ r. r ≡ next + count) }
{
    let mut next = next;
    let mut left = count;
    while left > 0 {
        scope.push(next)?;
        next = match next.checked_add(1) {
            Some(next) => next,
            None => return Err(NoMemory),
        };
        left -= 1;
    }
    Ok(next)
}

/// The slot of a variable; 0 where there is none.
pub fn slot_of(scope: &[u32], n: u32) -> u32
    ensures { result ≡ of.slot_of scope.now n }
{
    match scope.get(n as usize) {
        Some(slot) => *slot,
        None => 0,
    }
}
