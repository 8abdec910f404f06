//! What is known, as a pattern.

ghost use Rattle.std.specs.Prelude.{◌≡◌, map, IfOk};
ghost use Rattle.spec_match_compiler.specs.Patterns.{pats};
ghost use Rattle.spec_match_compiler.specs.Knowledge.{parts as known_parts};
ghost use Rattle.spec_match_compiler.specs.Rule.{example, examples, least_other};
ghost use Rattle.spec_match_compiler.specs.Views.{pat, knowledge};

use crate::knowledge::Knowledge;
use crate::pattern::Pattern;
use std::alloc::{AllocError, Global};

/// The pattern of what is known; a word of which some numbers were tested is the least other.
#[cycle(example)]
pub fn example(alloc: Global, known: &Knowledge) -> Result<Pattern, AllocError>
    ensures { IfOk result (λ r. pat r ≡ example (knowledge known.now)) }
{
    match known {
        Knowledge::Unknown(_shape) => Ok(Pattern::Any),
        Knowledge::Flag(value) => Ok(Pattern::Flag(*value)),
        Knowledge::Word(value) => Ok(Pattern::Word(*value)),
        Knowledge::Others { width: _w, tested } => Ok(Pattern::Word(least_other(tested))),
        Knowledge::Made { case, parts } => Ok(Pattern::Case {
            case: *case,
            parts: examples(alloc, parts)?,
        }),
    }
}

#[cycle(example)]
fn examples(alloc: Global, fields: &[Knowledge]) -> Result<Vec<Pattern>, AllocError>
    ensures { IfOk result
        (λ r. pats (map pat r.items) ≡ examples (known_parts (map knowledge fields.now))) }
{
    let mut out = Vec::new(alloc);
    for field in fields {
        out.push(example(alloc, field)?)?;
    }
    Ok(out)
}

/// The least number that isn't among these.
fn least_other(tested: &[u64]) -> u64
    ensures { result ≡ least_other tested.now }
{
    for n in 0..tested.len() as u64 {
        if !tested.contains(&n) {
            return n;
        }
    }
    tested.len() as u64
}
