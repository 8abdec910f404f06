//! The arm that a match on the instruction or on the state takes.

ghost use Rattle.std.specs.Prelude.{◌≡◌, map, option_map, slice_get, IfOk};
ghost use Rattle.semantics_values.specs.Views.{val};
ghost use Rattle.spec_match_compiler.specs.Views.{bound, tree};
ghost use Rattle.spec_match_compiler.specs.Decisions.{trees};
ghost use Rattle.analysis_choices.specs.Matches as of;

use crate::symbol::Symbol;
use semantics_values::Value;
use spec_match_compiler::{Decision, Path};
use std::alloc::{AllocError as NoMemory, Global};

/// The number of an arm, and what its variables name.
type RowOf<'d> = (u32, &'d Vec<(u32, Path)>);

/// The row that a tree is, if it asks nothing.
fn only_row<'d>(by: &'d Decision) -> Option<RowOf<'d>>
    ensures { option_map (λ r. (r.0, map bound r.1.now.items)) result ≡ of.only_row (tree by.now) }
{
    match by {
        Decision::Row { row, binds } => Some((*row, binds)),
        _ => None,
    }
}

/// The row that the decision of this number is.
fn row_at<'d>(case: u32, arms: &'d [Decision]) -> Option<RowOf<'d>>
    ensures { option_map (λ r. (r.0, map bound r.1.now.items)) result ≡ of.row_at case (trees (map tree arms.now)) }
{
    let number = case as usize;
    if number >= arms.len() {
        return None;
    }
    only_row(&arms[number])
}

/// The row of an arm, where nothing is asked of a part.
fn arm_row<'d>(case: u32, at: &Path, arms: &'d [Decision]) -> Option<RowOf<'d>>
    ensures { option_map (λ r. (r.0, map bound r.1.now.items)) result ≡ of.arm_row case at.now.steps.items (trees (map tree arms.now)) }
{
    match at.steps.as_slice() {
        [] => row_at(case, arms),
        _ => None,
    }
}

/// The row of a constructor, where nothing else is asked.
fn row_of<'d>(case: u32, by: &'d Decision) -> Option<RowOf<'d>>
    ensures { option_map (λ r. (r.0, map bound r.1.now.items)) result ≡ of.row_of case (tree by.now) }
{
    match by {
        Decision::Row { row, binds } => Some((*row, binds)),
        Decision::OnCase { at, arms } => arm_row(case, at, arms),
        _ => None,
    }
}

/// What a field of the instruction is.
fn part_symbol(part: Option<&Value>) -> Symbol
    ensures { result ≡ of.part_symbol (option_map (λ v. val v.now) part.entry) }
{
    match part {
        Some(Value::Word { v, .. }) => Symbol::Number(*v),
        _ => Symbol::Other,
    }
}

/// What stands at a place of the instruction.
fn in_instruction(parts: &[Value], at: &Path) -> Symbol
    ensures { result ≡ of.in_instruction (map val parts.now) at.now.steps.items }
{
    match at.steps.as_slice() {
        [] => Symbol::Instruction,
        [step] => part_symbol(parts.get(step.1 as usize)),
        _ => Symbol::Other,
    }
}

/// What stands at a place of the state.
fn in_state(at: &Path) -> Symbol
    ensures { result ≡ of.in_state at.now.steps.items }
{
    match at.steps.as_slice() {
        [] => Symbol::State,
        [step] if step.1 > 0 => Symbol::Field(step.1),
        _ => Symbol::Other,
    }
}

/// What the variables of a row are, of the instruction with these parts.
fn of_instruction(
    alloc: Global,
    parts: &[Value],
    binds: &[(u32, Path)],
) -> Result<Vec<Symbol>, NoMemory>
    ensures { IfOk result (λ r. r.items ≡ map (λ b. of.in_instruction (map val parts.now) b.1) (map bound binds.now)) }
{
    let mut out = Vec::new(alloc);
    for bind in binds {
        out.push(in_instruction(parts, &bind.1))?;
    }
    Ok(out)
}

/// What the variables of a row are, of the state.
fn of_state(alloc: Global, binds: &[(u32, Path)]) -> Result<Vec<Symbol>, NoMemory>
    ensures { IfOk result (λ r. r.items ≡ map (λ b. of.in_state b.1) (map bound binds.now)) }
{
    let mut out = Vec::new(alloc);
    for bind in binds {
        out.push(in_state(&bind.1))?;
    }
    Ok(out)
}

/// The arm of the instruction, with its variables.
fn arm_of_instruction(
    alloc: Global,
    case: u32,
    parts: &[Value],
    by: &Decision,
) -> Result<Option<(u32, Vec<Symbol>)>, NoMemory>
    ensures { IfOk result (λ r. option_map (λ a. (a.0, a.1.items)) r ≡ option_map (of.named (of.in_instruction (map val parts.now))) (of.row_of case (tree by.now))) }
{
    match row_of(case, by) {
        Some((row, binds)) => Ok(Some((row, of_instruction(alloc, parts, binds)?))),
        None => Ok(None),
    }
}

/// The arm of the state, with its variables.
fn arm_of_state(alloc: Global, by: &Decision) -> Result<Option<(u32, Vec<Symbol>)>, NoMemory>
    ensures { IfOk result (λ r. option_map (λ a. (a.0, a.1.items)) r ≡ option_map (of.named of.in_state) (of.row_of 0 (tree by.now))) }
{
    match row_of(0, by) {
        Some((row, binds)) => Ok(Some((row, of_state(alloc, binds)?))),
        None => Ok(None),
    }
}

/// The arm that a match takes, with its variables, where what is matched is the instruction or the state.
pub(crate) fn arm_of(
    alloc: Global,
    instruction: &Value,
    x: Symbol,
    by: &Decision,
) -> Result<Option<(u32, Vec<Symbol>)>, NoMemory>
    ensures { IfOk result (λ r. option_map (λ a. (a.0, a.1.items)) r ≡ of.arm_of (val instruction.now) x (tree by.now)) }
{
    match (x, instruction) {
        (Symbol::Instruction, Value::Made { case, parts, .. }) => {
            arm_of_instruction(alloc, *case, parts, by)
        }
        (Symbol::State, _) => arm_of_state(alloc, by),
        _ => Ok(None),
    }
}
