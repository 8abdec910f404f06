//! Groups of functions.

ghost use Rattle.std.specs.Prelude.{◌≡◌, true, length, map, IfErr, IfOk};
ghost use Rattle.support_reachability.specs.Table as reach;
ghost use Rattle.spec_ir.specs.Views as view;
ghost use Rattle.spec_ir.specs.declared.spec_error.SpecError.TheVariants.{NoMemory};
ghost use Rattle.spec_calls.specs.Calls as spec;
ghost use Rattle.spec_calls.specs.Told as told;

use crate::call::{Call, calls};
use spec_ir::{SpecError, Term, number};
use std::alloc::{AllocError, Global};
use support_reachability::Reachability;

/// What is said of the group of a function: of the functions that reach it by calls and that it
/// reaches, and of itself.
#[derive(Clone, Copy, Debug, PartialEq, Eq, Drop)]
pub struct Group {
    /// The least number of a function of the group.
    pub number: u32,
    /// Whether a function of the group calls one of the group.
    pub loops: bool,
}

/// The calls of each body.
pub fn calls_of_all(alloc: Global, bodies: &[&Term]) -> Result<Vec<Vec<Call>>, AllocError>
    ensures calls { IfOk result (λ r. map (λ cs. cs.items) r.items ≡ map (spec.calls true) (map (λ t. view.term t.now) bodies.now)) }
    ensures count { IfOk result (λ r. length r.items ≡ length bodies.now) }
{
    let mut all = Vec::new(alloc);
    for body in bodies {
        let mut found = Vec::new(alloc);
        calls(body, true, &mut found)?;
        all.push(found)?;
    }
    Ok(all)
}

/// The functions that are called.
fn called_functions(alloc: Global, found: &[Call]) -> Result<Vec<u32>, AllocError>
    ensures { IfOk result (λ r. r.items ≡ map (λ c. c.fun) found.now) }
{
    let mut out = Vec::new(alloc);
    for call in found {
        out.push(call.fun)?;
    }
    Ok(out)
}

/// The functions that each body calls.
pub fn call_graph(alloc: Global, all: &[Vec<Call>]) -> Result<Vec<Vec<u32>>, AllocError>
    ensures { IfOk result (λ r. map (λ row. row.items) r.items ≡ map (λ cs. map (λ c. c.fun) cs) (map (λ cs. cs.items) all.now)) }
{
    let mut graph = Vec::new(alloc);
    for found in all {
        graph.push(called_functions(alloc, found)?)?;
    }
    Ok(graph)
}

/// The group of function f, by a table of which functions reach which.
fn group_of(table: &Reachability, f: usize) -> Result<Group, SpecError>
    ensures memory { IfErr result (λ e. e ≡ NoMemory) }
    ensures number { IfOk result (λ g. g.number ≡ reach.group (reach.table table.now) f) }
    ensures loops { IfOk result (λ g. g.loops ≡ reach.says (reach.table table.now) f f) }
{
    Ok(Group {
        number: number(table.group(f))?,
        loops: table.reaches(f, f),
    })
}

/// The groups of functions 0 to `count` - 1.
pub fn all_groups(
    alloc: Global,
    table: &Reachability,
    count: usize,
) -> Result<Vec<Group>, SpecError>
    ensures memory { IfErr result (λ e. e ≡ NoMemory) }
    ensures groups { IfOk result (λ r. told.AreTold (reach.table table.now) count r.items) }
{
    let mut groups = Vec::new(alloc);
    for f in 0..count {
        groups.push(group_of(table, f)?)?;
    }
    Ok(groups)
}
