//! The comparisons on which the counter hangs.

ghost use Rattle.std.specs.Prelude.{◌≡◌, ◌∷◌, ◌++◌, [], map, option_map, IfOk};
ghost use Rattle.spec_ir.specs.Views.{core};
ghost use Rattle.spec_ir.specs.CoreTerms.{cores};
ghost use Rattle.semantics_values.specs.Views.{val};
ghost use Rattle.analysis_choices.specs.Comparisons as of;
ghost use Rattle.analysis_choices.specs.Symbols.{decided};

use crate::matches::arm_of;
use crate::symbol::{ShiftedCell, Symbol, as_cell, decided, symbol_of};
use semantics_values::Value;
use spec_ir::Core;
use std::alloc::{AllocError as NoMemory, Global};
use word_operations::WordComparison;

/// A comparison of a cell with a number of at most 32 bits.
#[derive(Clone, Copy, Debug, PartialEq, Eq)]
pub struct CellComparison {
    pub cell: ShiftedCell,
    pub op: WordComparison,
    /// Whether the cell stands on the left.
    pub on_left: bool,
    pub number: u32,
}

/// These comparisons, and those behind them.
fn both(x: Vec<CellComparison>, y: Vec<CellComparison>) -> Result<Vec<CellComparison>, NoMemory>
    ensures { IfOk result (λ r. r.items ≡ x.items ++ y.items) }
{
    let (mut x, mut y) = (x, y);
    x.append(&mut y)?;
    Ok(x)
}

/// A comparison that is there, as a list.
fn in_list(alloc: Global, c: Option<CellComparison>) -> Result<Vec<CellComparison>, NoMemory>
    ensures { IfOk result (λ r. r.items ≡ of.in_list c) }
{
    let mut out = Vec::new(alloc);
    if let Some(c) = c {
        out.push(c)?;
    }
    Ok(out)
}

/// A comparison with a number, if it has 32 bits.
fn with_number(
    op: WordComparison,
    on_left: bool,
    number: u64,
    cell: Option<ShiftedCell>,
) -> Option<CellComparison>
    ensures { result ≡ of.with_number op on_left number cell }
{
    match cell {
        Some(cell) if number < 0x1_0000_0000 => Some(CellComparison {
            cell,
            op,
            on_left,
            number: number as u32,
        }),
        _ => None,
    }
}

/// Whether it compares the numbers themselves, at each width alike.
fn is_unsigned(op: WordComparison) -> bool
    ensures { result ≡ of.is_unsigned op }
{
    !matches!(op, WordComparison::LtS | WordComparison::LeS)
}

/// The comparison of two sides of which one is a number.
fn of_sides(op: WordComparison, x: Symbol, y: Symbol) -> Option<CellComparison>
    ensures { result ≡ of.of_sides op x y }
{
    match (x, y) {
        (x, Symbol::Number(n)) => with_number(op, true, n, as_cell(x)),
        (Symbol::Number(n), y) => with_number(op, false, n, as_cell(y)),
        _ => None,
    }
}

/// The comparison of two words of a width, by the signed reading of 32 bits alone.
fn of_words(op: WordComparison, w: u32, x: Symbol, y: Symbol) -> Option<CellComparison>
    ensures { result ≡ of.of_words op w x y }
{
    if w == 32 || is_unsigned(op) {
        of_sides(op, x, y)
    } else {
        None
    }
}

/// Those of the branches that may be taken.
fn of_branches(
    truth: Option<bool>,
    x: Vec<CellComparison>,
    y: Vec<CellComparison>,
) -> Result<Vec<CellComparison>, NoMemory>
    ensures { IfOk result (λ r. r.items ≡ of.of_branches truth x.items y.items) }
{
    match truth {
        Some(true) => Ok(x),
        Some(false) => Ok(y),
        None => both(x, y),
    }
}

/// These variables, and more behind them.
fn with_more(alloc: Global, env: &[Symbol], more: &[Symbol]) -> Result<Vec<Symbol>, NoMemory>
    ensures { IfOk result (λ r. r.items ≡ env.now ++ more.now) }
{
    let mut out = Vec::new(alloc);
    out.extend_from_slice(env)?;
    out.extend_from_slice(more)?;
    Ok(out)
}

/// The comparisons of cells with known numbers on which the counter of a term may hang, in the order of evaluation.
#[cycle(comparisons)]
pub(crate) fn compared(
    alloc: Global,
    instruction: &Value,
    env: &[Symbol],
    t: &Core,
) -> Result<Vec<CellComparison>, NoMemory>
    ensures { IfOk result (λ r. r.items ≡ of.compared (val instruction.now) env.now (core t.now)) }
{
    match t {
        Core::Un { x, .. } | Core::Cast { x, .. } => compared(alloc, instruction, env, x),
        Core::Bin { x, y, .. } => {
            let first = compared(alloc, instruction, env, x)?;
            both(first, compared(alloc, instruction, env, y)?)
        }
        Core::Test { c, w, x, y } => {
            in_list(
                alloc,
                of_words(*c, *w, symbol_of(env, x), symbol_of(env, y)),
            )
        }
        Core::Let { x, then } => {
            let inner = with_more(alloc, env, &[symbol_of(env, x)])?;
            compared(alloc, instruction, &inner, then)
        }
        Core::If { c, yes, no } => compared_branches(alloc, instruction, env, c, yes, no),
        Core::Choose { x, by, arms } => match arm_of(alloc, instruction, symbol_of(env, x), by)? {
            Some((row, names)) => {
                let inner = with_more(alloc, env, &names)?;
                compared_arm(alloc, instruction, &inner, arms, row)
            }
            None => Ok(Vec::new(alloc)),
        },
        Core::Make { args, .. } => compared_arm(alloc, instruction, env, args, 0),
        _ => Ok(Vec::new(alloc)),
    }
}

/// The same of a condition and its branches.
#[cycle(comparisons)]
fn compared_branches(
    alloc: Global,
    instruction: &Value,
    env: &[Symbol],
    c: &Core,
    yes: &Core,
    no: &Core,
) -> Result<Vec<CellComparison>, NoMemory>
    ensures { IfOk result (λ r. r.items ≡ of.compared (val instruction.now) env.now (core c.now)
        ++ of.of_branches (decided env.now (core c.now)) (of.compared (val instruction.now) env.now (core yes.now)) (of.compared (val instruction.now) env.now (core no.now))) }
{
    let first = compared(alloc, instruction, env, c)?;
    let left = compared(alloc, instruction, env, yes)?;
    let right = compared(alloc, instruction, env, no)?;
    both(first, of_branches(decided(env, c), left, right)?)
}

/// The same of one of these terms, if there is one of this number.
#[cycle(comparisons)]
fn compared_arm(
    alloc: Global,
    instruction: &Value,
    env: &[Symbol],
    arms: &[Core],
    row: u32,
) -> Result<Vec<CellComparison>, NoMemory>
    ensures { IfOk result (λ r. r.items ≡ of.arm_at (val instruction.now) env.now (cores (map core arms.now)) row) }
{
    let number = row as usize;
    if number >= arms.len() {
        return Ok(Vec::new(alloc));
    }
    compared(alloc, instruction, env, &arms[number])
}
