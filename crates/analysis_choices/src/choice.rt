//! The cells that an instruction cuts.

ghost use Rattle.std.specs.Prelude.{◌≡◌, map, slice_get, IfOk};
ghost use Rattle.spec_ir.specs.Views.{fun_of, specification};
ghost use Rattle.semantics_values.specs.Views.{val};
ghost use Rattle.analysis_choices.specs.Choice as of;
ghost use Rattle.analysis_choices.specs.Views.{choice};

use crate::comparison::{CellComparison, compared};
use crate::cuts::cuts_of;
use crate::symbol::Symbol;
use semantics_values::{KeyAt, Value};
use spec_ir::{Fun, Machine, Spec};
use std::alloc::{AllocError as NoMemory, Global};

/// A cell of a state, and the numbers at which it is cut, ascending.
#[derive(Drop)]
pub struct CellCuts {
    /// Its field, counted from 1.
    pub place: u32,
    pub key: KeyAt,
    pub cuts: Vec<u64>,
}

/// The cell of a comparison, with its cuts.
fn cell_cuts(alloc: Global, c: &CellComparison) -> Result<CellCuts, NoMemory>
    ensures { IfOk result (λ r. choice r ≡ of.cell_cuts c.now) }
{
    let cuts = cuts_of(alloc, c)?;
    Ok(CellCuts {
        place: c.cell.place,
        key: c.cell.key,
        cuts,
    })
}

/// The cells of comparisons, with their cuts.
fn all_cuts(alloc: Global, found: &[CellComparison]) -> Result<Vec<CellCuts>, NoMemory>
    ensures { IfOk result (λ r. map choice r.items ≡ map of.cell_cuts found.now) }
{
    let mut out = Vec::new(alloc);
    for c in found {
        out.push(cell_cuts(alloc, c)?)?;
    }
    Ok(out)
}

/// The comparisons on which the counter hangs, by the function of this number.
fn compared_in(
    alloc: Global,
    instruction: &Value,
    funs: &[Fun],
    interp: u32,
) -> Result<Vec<CellComparison>, NoMemory>
    ensures { IfOk result (λ r. r.items ≡ of.compared_in (val instruction.now) (slice_get (map fun_of funs.now) interp)) }
{
    let number = interp as usize;
    if number >= funs.len() {
        return Ok(Vec::new(alloc));
    }
    let env = [Symbol::Instruction, Symbol::State];
    compared(alloc, instruction, &env, &funs[number].core)
}

/// The cells that a decoded instruction cuts, each with the numbers at which it does, in the order in which it compares them.
pub fn choices_of(
    alloc: Global,
    spec: &Spec,
    machine: Machine,
    instruction: &Value,
) -> Result<Vec<CellCuts>, NoMemory>
    ensures { IfOk result (λ r. map choice r.items ≡ of.choices_of (specification spec.now) machine (val instruction.now)) }
{
    let found = compared_in(alloc, instruction, &spec.funs, machine.interp)?;
    all_cuts(alloc, &found)
}
