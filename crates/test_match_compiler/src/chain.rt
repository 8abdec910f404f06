//! Decisions of many questions, one below the other.

use spec_match_compiler::{Decision, Path};
use std::alloc::{AllocError, Global};
use test_case_lines::{Read, Unread};

/// A row without variables.
fn leaf(alloc: Global, row: u32) -> Decision {
    Decision::Row {
        row,
        binds: Vec::new(alloc),
    }
}

/// One question more above a decision, which stands where the answer is no.
fn asked(alloc: Global, value: u64, no: Decision) -> Result<Decision, AllocError> {
    let no = Box::new(alloc, no)?;
    Ok(Decision::OnWord {
        at: Path {
            steps: Vec::new(alloc),
        },
        value,
        yes: Box::new(alloc, leaf(alloc, 1))?,
        no,
    })
}

fn questions(alloc: Global, count: u64) -> Result<Decision, AllocError> {
    let mut decision = leaf(alloc, 0);
    for value in 0..count {
        decision = asked(alloc, value, decision)?;
    }
    Ok(decision)
}

/// The row of the leaf where each answer is no.
fn last_row(decision: &Decision) -> Option<u32> {
    let mut rest = decision;
    loop {
        match rest {
            Decision::OnWord { no, .. } => rest = no,
            Decision::Row { row, .. } => return Some(*row),
            _ => return None,
        }
    }
}

/// The row at the end of so many questions.
pub(crate) fn chain(alloc: Global, count: &str) -> Read<usize> {
    let count = count.parse::<u64>().ok().ok_or(Unread::No)?;
    let decision = questions(alloc, count)?;
    let row = last_row(&decision).ok_or(Unread::No)?;
    Ok(row as usize)
}
