//! Rows that are left.

ghost use Rattle.std.specs.Prelude.{◌≡◌, ◌<◌, ◌^◌, [], ◌∷◌, map, length, IfOk};
ghost use Rattle.spec_match_compiler.specs.Picks.{numbered};
ghost use Rattle.spec_match_compiler.specs.Knowledge.{others, put};
ghost use Rattle.spec_match_compiler.specs.Rule.{still};
ghost use Rattle.spec_match_compiler.specs.Views.{pat, knowledge, candidate};

use crate::can_match::can_match;
use crate::knowledge::Knowledge;
use crate::pattern::Pattern;
use crate::put::put_knowledge;
use std::alloc::{AllocError, Global};

/// A row that is left.
#[derive(Clone, Copy, Drop)]
pub struct Candidate<'a> {
    pub number: u32,
    pub pattern: &'a Pattern,
}

/// All rows by their numbers.
pub fn candidates<'a>(alloc: Global, rows: &'a [Pattern]) -> Result<Vec<Candidate<'a>>, AllocError>
    requires { length rows.now < 2 ^ 32 }
    ensures { IfOk result (λ r. map candidate r.items ≡ numbered 0 (map pat rows.now)) }
{
    let mut out = Vec::new(alloc);
    for (i, pattern) in rows.iter().enumerate() {
        out.push(Candidate {
            number: i as u32,
            pattern,
        })?;
    }
    Ok(out)
}

/// The rows that can still match, in their order.
pub fn remaining_candidates<'a>(
    alloc: Global,
    left: &[Candidate<'a>],
    known: &Knowledge,
) -> Result<Vec<Candidate<'a>>, AllocError>
    ensures { IfOk result
        (λ r. map candidate r.items ≡ still (map candidate left.now) (knowledge known.now)) }
{
    let mut out = Vec::new(alloc);
    for row in left {
        if can_match(row.pattern, known) {
            out.push(*row)?;
        }
    }
    Ok(out)
}

/// The rows that can match where the word at a place isn't this number, whatever else was tested
/// there before. Whether a row can match doesn't ask for the word's width.
pub fn other_candidates<'a>(
    alloc: Global,
    left: &[Candidate<'a>],
    known: &Knowledge,
    at: &[(u32, u32)],
    value: u64,
) -> Result<Vec<Candidate<'a>>, AllocError>
    ensures { IfOk result
        (λ r. map candidate r.items ≡ still (map candidate left.now) (put (knowledge known.now) at.now (others 64 (value ∷ [])))) }
{
    let newest = Knowledge::Others {
        width: 64,
        tested: vec![in alloc; value]?,
    };
    let next = put_knowledge(alloc, known, at, &newest)?;
    remaining_candidates(alloc, left, &next)
}
