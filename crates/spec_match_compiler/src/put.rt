//! What is known after a test.

ghost use Rattle.std.specs.Prelude.{◌≡◌, map, IfOk};
ghost use Rattle.spec_match_compiler.specs.Knowledge.{parts as known_parts, put, put_part};
ghost use Rattle.spec_match_compiler.specs.Views.{knowledge};

use crate::knowledge::Knowledge;
use std::alloc::{AllocError, Global};

/// The same once more.
#[cycle(copy)]
fn copy(alloc: Global, known: &Knowledge) -> Result<Knowledge, AllocError>
    ensures { IfOk result (λ r. knowledge r ≡ knowledge known.now) }
{
    match known {
        Knowledge::Unknown(shape) => Ok(Knowledge::Unknown(*shape)),
        Knowledge::Flag(value) => Ok(Knowledge::Flag(*value)),
        Knowledge::Word(value) => Ok(Knowledge::Word(*value)),
        Knowledge::Others { width, tested } => Ok(Knowledge::Others {
            width: *width,
            tested: Vec::from_slice(alloc, tested)?,
        }),
        Knowledge::Made { case, parts } => Ok(Knowledge::Made {
            case: *case,
            parts: copies(alloc, parts)?,
        }),
    }
}

#[cycle(copy)]
fn copies(alloc: Global, parts: &[Knowledge]) -> Result<Vec<Knowledge>, AllocError>
    ensures { IfOk result (λ r. map knowledge r.items ≡ map knowledge parts.now) }
{
    let mut out = Vec::new(alloc);
    for part in parts {
        out.push(copy(alloc, part)?)?;
    }
    Ok(out)
}

/// What is known once `there` is known at a place.
#[cycle(put_knowledge)]
pub fn put_knowledge(
    alloc: Global,
    known: &Knowledge,
    at: &[(u32, u32)],
    there: &Knowledge,
) -> Result<Knowledge, AllocError>
    ensures { IfOk result (λ r. knowledge r ≡ put (knowledge known.now) at.now (knowledge there.now)) }
{
    let Some((step, rest)) = at.split_first() else {
        return copy(alloc, there);
    };
    match known {
        Knowledge::Made { case, parts } => Ok(Knowledge::Made {
            case: *case,
            parts: put_part(alloc, parts, step.1, rest, there)?,
        }),
        _ => copy(alloc, known),
    }
}

/// The same of the fields of a constructor, where `at` is a place in field `field`.
#[cycle(put_knowledge)]
fn put_part(
    alloc: Global,
    parts: &[Knowledge],
    field: u32,
    at: &[(u32, u32)],
    there: &Knowledge,
) -> Result<Vec<Knowledge>, AllocError>
    ensures { IfOk result
        (λ r. known_parts (map knowledge r.items) ≡ put_part (known_parts (map knowledge parts.now)) field at.now (knowledge there.now)) }
{
    let mut out = Vec::new(alloc);
    for (i, part) in parts.iter().enumerate() {
        if i == field as usize {
            out.push(put_knowledge(alloc, part, at, there)?)?;
        } else {
            out.push(copy(alloc, part)?)?;
        }
    }
    Ok(out)
}
