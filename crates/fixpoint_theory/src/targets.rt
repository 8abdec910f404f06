//! Targets inside the code and outside.

ghost use Rattle.std.specs.Prelude.{◌≡◌, ℕ, List, IfOk, map};
ghost use Rattle.fixpoint_theory.specs.Analysis.{Analysis};
ghost use Rattle.fixpoint_theory.specs.Code.{inside, is_code, outside};
ghost use Rattle.fixpoint_theory.specs.Outcome.{addresses};
ghost use Rattle.fixpoint_theory.specs.Views.{arriving};

use crate::analyser::Analyser;
use crate::transfer::Arrival;
use std::alloc::{AllocError as NoMemory, Global};

/// Those of targets that are code addresses.
pub fn next_of<A: Analyser>(
    analyser: &A,
    alloc: Global,
    targets: &[u32],
) -> Result<Vec<u32>, NoMemory>
    ensures { IfOk result (λ r. r.items ≡ inside (A.analysis analyser.now).code targets.now) }
{
    let mut next = Vec::new(alloc);
    for to in targets {
        if analyser.is_code(*to) {
            next.push(*to)?;
        }
    }
    Ok(next)
}

/// Those of targets that are not.
pub fn exits_of<A: Analyser>(
    analyser: &A,
    alloc: Global,
    targets: &[u32],
) -> Result<Vec<u32>, NoMemory>
    ensures { IfOk result (λ r. r.items ≡ outside (A.analysis analyser.now).code targets.now) }
{
    let mut exits = Vec::new(alloc);
    for to in targets {
        if !analyser.is_code(*to) {
            exits.push(*to)?;
        }
    }
    Ok(exits)
}

/// The addresses at which something arrives.
pub fn addresses_of<A: Analyser>(
    alloc: Global,
    arrivals: &[Arrival<A::Element>],
) -> Result<Vec<u32>, NoMemory>
    ensures { IfOk result (λ r. r.items ≡ addresses (map (arriving A.view) arrivals.now)) }
{
    let mut out = Vec::new(alloc);
    for sent in arrivals {
        out.push(sent.to)?;
    }
    Ok(out)
}
