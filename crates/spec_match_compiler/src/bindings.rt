//! What the variables of a pattern name.

ghost use Rattle.std.specs.Prelude.{◌≡◌, ◌<◌, ◌^◌, ◌++◌, [], ◌∷◌, map, length, OnOk, IfOk};
ghost use Rattle.spec_match_compiler.specs.Patterns.{pats, pats_len};
ghost use Rattle.spec_match_compiler.specs.Limits.{PatInLimits, PatsInLimits};
ghost use Rattle.spec_match_compiler.specs.Meets.{bindings, part_bindings};
ghost use Rattle.spec_match_compiler.specs.Views.{pat, bound};

use crate::decision::Path;
use crate::pattern::Pattern;
use smallvec::SmallVec;
use std::alloc::{AllocError, Global};

/// Adds the variables of a pattern that stands at a place, each with the place that it names.
#[cycle(bindings)]
pub fn bindings(
    alloc: Global,
    at: &[(u32, u32)],
    pattern: &Pattern,
    out: &mut Vec<(u32, Path)>,
) -> Result<(), AllocError>
    requires { PatInLimits (pat pattern.now) }
    ensures { OnOk result (map bound out.new.items ≡ map bound out.old.items ++ bindings at.now (pat pattern.now)) }
{
    match pattern {
        Pattern::Bind(variable) => {
            let steps = Vec::from_slice(alloc, at)?;
            out.push((*variable, Path { steps }))?;
            Ok(())
        }
        Pattern::Case { case, parts } => part_bindings(alloc, at, *case, parts, out),
        _ => Ok(()),
    }
}

/// Adds those of the fields of a constructor.
#[cycle(bindings)]
fn part_bindings(
    alloc: Global,
    at: &[(u32, u32)],
    case: u32,
    parts: &[Pattern],
    out: &mut Vec<(u32, Path)>,
) -> Result<(), AllocError>
    requires few { pats_len (pats (map pat parts.now)) < 2 ^ 32 }
    requires limits { PatsInLimits (pats (map pat parts.now)) }
    ensures { OnOk result (map bound out.new.items
        ≡ map bound out.old.items ++ part_bindings at.now case 0 (pats (map pat parts.now))) }
{
    for (i, part) in parts.iter().enumerate() {
        let place = step_down(alloc, at, case, i as u32)?;
        bindings(alloc, place.as_slice(), part, out)?;
    }
    Ok(())
}

/// The place of a field.
fn step_down(
    alloc: Global,
    at: &[(u32, u32)],
    case: u32,
    field: u32,
) -> Result<SmallVec<(u32, u32), 8>, AllocError>
    ensures { IfOk result (λ r. r.items ≡ at.now ++ (case, field) ∷ []) }
{
    let mut place = SmallVec::from_slice(alloc, at)?;
    place.push((case, field))?;
    Ok(place)
}
