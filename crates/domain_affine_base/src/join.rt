//! Joins, and what is at least another word.

ghost use Rattle.std.specs.Prelude.{◌≡◌, ◌≤◌, IfOk};
ghost use Rattle.domain_affine_base.specs.Join.{is_absorbing, join_of, range_of, rank_of};

use super::word::Word;
use std::alloc::{AllocError as NoMemory, Global};

/// Equal words are kept; the join of others is any.
pub(crate) fn join(alloc: Global, x: &Word, y: &Word) -> Result<Word, NoMemory>
    ensures { IfOk result (λ r. r ≡ join_of x.now y.now) }
{
    if x == y { x.copy(alloc) } else { Ok(Word::Any) }
}

/// Whether the old word is any, or equal to the new one.
pub(crate) fn absorbs(old: &Word, new: &Word) -> bool
    ensures { result ≡ is_absorbing old.now new.now }
{
    match old {
        Word::Any => true,
        _ => old == new,
    }
}

/// 0 for any, else 1: a word is widened once at most.
pub(crate) fn rank(x: &Word) -> u64
    ensures { result ≡ rank_of x.now }
{
    match x {
        Word::Any => 0,
        _ => 1,
    }
}

/// The number, where it is one alone, else any.
pub(crate) fn range(low: u64, high: u64) -> Word
    ensures { result ≡ range_of low high }
{
    if low == high {
        Word::Const(low)
    } else {
        Word::Any
    }
}
