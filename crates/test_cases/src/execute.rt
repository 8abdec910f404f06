//! What an instruction makes of an interval.

ghost use Rattle.std.specs.Prelude.{◌≡◌, ◌≤◌, [], ◌∷◌, Some, IfOk, map, nat_lt, if◌then◌else◌};
ghost use Rattle.base_trait.specs.Uses.{seen};
ghost use Rattle.fixpoint_theory.specs.Outcome.{moves};
ghost use Rattle.fixpoint_theory.specs.Views.{outcome};
ghost use Rattle.test_cases.specs.Machine.{executed, fork_targets, number_used};

use crate::machine::{HALF, Instr, Interval, TOP};
use base_trait::{Stamp, Use};
use fixpoint_theory::{Targets, Transfer, Transferred};
use std::alloc::{AllocError as NoMemory, Global};

/// The address behind an instruction and another, ascending and without doubles.
fn fork(alloc: Global, next: u32, to: u32) -> Result<Vec<u32>, NoMemory>
    ensures { IfOk result (λ r. r.items ≡ fork_targets next to) }
{
    let mut targets = Vec::new(alloc);
    if next < to {
        targets.push(next)?;
        targets.push(to)?;
    } else if to < next {
        targets.push(to)?;
        targets.push(next)?;
    } else {
        targets.push(next)?;
    }
    Ok(targets)
}

/// Where a fork may go from the numbers of an interval.
fn ways(alloc: Global, next: u32, to: u32, x: Interval) -> Result<Vec<u32>, NoMemory>
    ensures { IfOk result (λ r. r.items ≡ (if nat_lt x.high 50 then to ∷ [] else (if nat_lt x.low 50 then fork_targets next to else next ∷ []))) }
{
    if x.high < HALF {
        one(alloc, to)
    } else if x.low < HALF {
        fork(alloc, next, to)
    } else {
        one(alloc, next)
    }
}

fn one(alloc: Global, to: u32) -> Result<Vec<u32>, NoMemory>
    ensures { IfOk result (λ r. r.items ≡ to ∷ []) }
{
    let mut targets = Vec::new(alloc);
    targets.push(to)?;
    Ok(targets)
}

/// The use of the number, whose cell is the entry's.
pub(crate) fn use_of_number(alloc: Global) -> Result<Vec<Use>, NoMemory>
    ensures { IfOk result (λ r. map seen r.items ≡ number_used) }
{
    let mut from = Vec::new(alloc);
    from.push(Stamp::Entry)?;
    let mut uses = Vec::new(alloc);
    uses.push(Use {
        map: 0,
        key: None,
        from,
    })?;
    Ok(uses)
}

/// A transfer to some targets.
fn moved(
    alloc: Global,
    targets: Vec<u32>,
    post: Interval,
    reads: bool,
) -> Result<Transferred<Interval, Interval>, NoMemory>
    ensures { IfOk result (λ r. outcome (λ x. x) r ≡ moves targets.items (Some post) (if reads then number_used else [])) }
{
    let uses = if reads {
        use_of_number(alloc)?
    } else {
        Vec::new(alloc)
    };
    Ok(Transferred::Made(Transfer {
        targets: Targets::List(targets),
        post: Some(post),
        uses,
    }))
}

/// What an instruction makes of an interval.
pub(crate) fn execute(
    alloc: Global,
    at: u32,
    instr: Instr,
    x: Interval,
) -> Result<Transferred<Interval, Interval>, NoMemory>
    requires { x.high ≤ 99 }
    ensures { IfOk result (λ r. outcome (λ x. x) r ≡ executed at instr x) }
{
    let next = at.wrapping_add(4);
    match instr {
        Instr::Set(n) => {
            let n = n.min(TOP);
            moved(
                alloc,
                one(alloc, next)?,
                Interval { low: n, high: n },
                false,
            )
        }
        Instr::Add(n) => {
            let n = n.min(TOP);
            let post = Interval {
                low: x.low.min(TOP).wrapping_add(n).min(TOP),
                high: x.high.wrapping_add(n).min(TOP),
            };
            moved(alloc, one(alloc, next)?, post, true)
        }
        Instr::Goto(to) => moved(alloc, one(alloc, to)?, x, false),
        Instr::Fork(to) => moved(alloc, ways(alloc, next, to, x)?, x, true),
        Instr::Wild => Ok(Transferred::Made(Transfer {
            targets: Targets::Many { shown: x },
            post: None,
            uses: use_of_number(alloc)?,
        })),
        Instr::Spin => Ok(Transferred::Made(Transfer {
            targets: Targets::List(Vec::new(alloc)),
            post: None,
            uses: Vec::new(alloc),
        })),
        Instr::Bad => Ok(Transferred::Undecodable { word: 0 }),
    }
}
