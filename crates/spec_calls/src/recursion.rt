//! Functions that may not call as they do.

ghost use Rattle.std.specs.Prelude.{◌≡◌, ◌⊎◌, ◌<◌, ◌&&◌, ℕ, length, map, not, IfErr, IfOk, IfSome, OnOk};
ghost use Rattle.support_reachability.specs.Table as reach;
ghost use Rattle.spec_ir.specs.Views as view;
ghost use Rattle.spec_ir.specs.declared.spec_error.SpecError.TheVariants.{BadRecursion, NoMemory};
ghost use Rattle.spec_calls.specs.Groups.{AreGroups, IsRanked};
ghost use Rattle.spec_calls.specs.Recursion.{IsRecursionFault, NoRecursionFault};
ghost use Rattle.spec_calls.specs.Told as told;

use crate::call::Call;
use crate::group::{Group, all_groups, call_graph, calls_of_all};
use spec_ir::{SpecError, Term};
use std::alloc::Global;
use support_reachability::Reachability;
use syntax_parser::tree::Name;

/// Whether a call of function f is of its own group and outside tail position.
fn is_inside(table: &Reachability, f: usize, call: &Call) -> bool
    ensures { result ≡ (not call.now.tail && reach.same_group (reach.table table.now) f call.now.fun) }
{
    !call.tail && table.same_group(f, call.fun as usize)
}

/// Whether one of the calls of function f is of its own group and outside tail position.
fn calls_inside(table: &Reachability, f: usize, found: &[Call]) -> bool
    ensures { result ≡ told.calls_inside (reach.table table.now) f found.now }
{
    for call in found {
        if is_inside(table, f, call) {
            return true;
        }
    }
    false
}

/// The first function that has such a call, by the calls of each.
fn first_inside(table: &Reachability, all: &[Vec<Call>]) -> Option<usize>
    ensures first { result ≡ told.first_inside (reach.table table.now) 0 (map (λ cs. cs.items) all.now) }
    ensures bound { IfSome result (λ f. f < length all.now) }
{
    for f in 0..all.len() {
        if calls_inside(table, f, &all[f]) {
            return Some(f);
        }
    }
    None
}

/// The fault of a function with this name.
fn fault_at(alloc: Global, name: &Name) -> SpecError
    ensures { (result ≡ BadRecursion name.now.span name.now.text) ⊎ (result ≡ NoMemory) }
{
    match name.text.copy(alloc) {
        Ok(function) => SpecError::BadRecursion {
            span: name.span,
            function,
        },
        Err(_) => SpecError::NoMemory,
    }
}

/// The groups of functions with these names and bodies, by their numbers.
///
/// The error is `BadRecursion` exactly where a function calls one of its own group outside tail
/// position: at the name of the first that does. Tail positions are the body, the branches of a
/// choice, the body of a `let` and the arms of a match.
pub fn groups(alloc: Global, names: &[&Name], bodies: &[&Term]) -> Result<Vec<Group>, SpecError>
    requires { length names.now ≡ length bodies.now }
    ensures accepted { OnOk result (NoRecursionFault (map (λ t. view.term t.now) bodies.now)) }
    ensures groups { IfOk result (λ r. AreGroups (map (λ t. view.term t.now) bodies.now) r.items) }
    ensures ranks { OnOk result ((rank : ℕ → ℕ) × IsRanked (map (λ t. view.term t.now) bodies.now) rank) }
    ensures fault { IfErr result (λ e. IsRecursionFault (map (λ n. n.now) names.now) (map (λ t. view.term t.now) bodies.now) e ⊎ (e ≡ NoMemory)) }
{
    let all = calls_of_all(alloc, bodies)?;
    let graph = call_graph(alloc, &all)?;
    let table = Reachability::of(alloc, &graph)?;
    match first_inside(&table, &all) {
        None => all_groups(alloc, &table, bodies.len()),
        Some(f) => Err(fault_at(alloc, names[f])),
    }
}
