//! The first position that is still to be tested.

ghost use Rattle.std.specs.Prelude.{◌≡◌, ◌+◌, ◌<◌, ◌^◌, map, length, IfOk, IfSome, option_map, None, nat_lt, []};
ghost use Rattle.word_operations.specs.Width.{IsWidth};
ghost use Rattle.spec_match_compiler.specs.Patterns.{pats};
ghost use Rattle.spec_match_compiler.specs.Knowledge.{parts as known_parts};
ghost use Rattle.spec_match_compiler.specs.Limits.{InLimits, AllInLimits, parts_len};
ghost use Rattle.spec_match_compiler.specs.Views.{pat, knowledge, test, found};
ghost use Rattle.spec_match_compiler.specs.Rule.{test_here, first_test, first_below, outermost, below};

use crate::knowledge::{Knowledge, PendingTest, Test};
use crate::pattern::Pattern;
use crate::shape::Shape;
use smallvec::SmallVec;
use std::alloc::{AllocError, Global};

/// The first position of a pattern that what is known doesn't settle, outermost first, then from
/// left to right, and the test there.
#[cycle(first_test)]
pub fn first_test(
    alloc: Global,
    pattern: &Pattern,
    known: &Knowledge,
) -> Result<Option<PendingTest>, AllocError>
    requires { InLimits (knowledge known.now) }
    ensures { IfOk result
        (λ r. option_map found r ≡ first_test (pat pattern.now) (knowledge known.now)) }
{
    match (pattern, known) {
        (
            Pattern::Case {
                case: _asked,
                parts,
            },
            Knowledge::Made {
                case,
                parts: fields,
            },
        ) => first_below(alloc, *case, parts, fields),
        _ => test_here(alloc, pattern, known),
    }
}

/// The first such position in the fields of a constructor.
#[cycle(first_test)]
fn first_below(
    alloc: Global,
    case: u32,
    patterns: &[Pattern],
    fields: &[Knowledge],
) -> Result<Option<PendingTest>, AllocError>
    requires few { parts_len (known_parts (map knowledge fields.now)) < 2 ^ 32 }
    requires limits { AllInLimits (known_parts (map knowledge fields.now)) }
    ensures { IfOk result
        (λ r. option_map found r ≡ first_below None case 0 (pats (map pat patterns.now)) (known_parts (map knowledge fields.now))) }
{
    let mut best = None;
    for i in 0..patterns.len().min(fields.len()) {
        let part = first_test(alloc, &patterns[i], &fields[i])?;
        best = outermost(best, below(case, i as u32, part)?);
    }
    Ok(best)
}

/// The same position in field `field` of the constructor `case`.
fn below(
    case: u32,
    field: u32,
    part: Option<PendingTest>,
) -> Result<Option<PendingTest>, AllocError>
    ensures { IfOk result (λ r. option_map found r ≡ option_map (below case field) (option_map found part)) }
{
    match part {
        None => Ok(None),
        Some(PendingTest { mut at, test }) => {
            at.insert(0, (case, field))?;
            Ok(Some(PendingTest { at, test }))
        }
    }
}

/// The outermost of two positions, and of equally deep ones the left.
fn outermost(left: Option<PendingTest>, right: Option<PendingTest>) -> Option<PendingTest>
    ensures { option_map found result ≡ outermost (option_map found left) (option_map found right) }
{
    match (left, right) {
        (None, right) => right,
        (Some(left), None) => Some(left),
        (Some(left), Some(right)) => {
            if left.at.len() <= right.at.len() {
                Some(left)
            } else {
                Some(right)
            }
        }
    }
}

/// The test at the outermost position.
fn test_here(
    alloc: Global,
    pattern: &Pattern,
    known: &Knowledge,
) -> Result<Option<PendingTest>, AllocError>
    requires { InLimits (knowledge known.now) }
    ensures { IfOk result
        (λ r. option_map found r ≡ option_map (λ t. ([], t)) (test_here (pat pattern.now) (knowledge known.now))) }
{
    let asked = match (pattern, known) {
        (Pattern::Flag(_b), Knowledge::Unknown(Shape::Bool)) => Test::Flag,
        (Pattern::Word(value), Knowledge::Unknown(Shape::Word(width))) => Test::Word {
            width: *width,
            tested: Vec::new(alloc),
            value: *value,
        },
        (Pattern::Word(value), Knowledge::Others { width, tested }) if has_two(*width, tested) => {
            Test::Word {
                width: *width,
                tested: Vec::from_slice(alloc, tested)?,
                value: *value,
            }
        }
        (
            Pattern::Case {
                case: _case,
                parts: _parts,
            },
            Knowledge::Unknown(Shape::Data(t)),
        ) => Test::Case(*t),
        _ => return Ok(None),
    };
    Ok(Some(PendingTest {
        at: SmallVec::new(alloc),
        test: asked,
    }))
}

/// Whether at least two numbers of w bits would be left, if these are different.
fn has_two(width: u32, tested: &[u64]) -> bool
    requires { IsWidth width }
    ensures { result ≡ nat_lt (length tested.now + 1) (2 ^ width) }
{
    (tested.len() as u64) < u64::MAX >> (64 - width)
}
