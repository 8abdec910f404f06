//! The numbers at which a comparison cuts its cell.

ghost use Rattle.std.specs.Prelude.{◌≡◌, ◌∷◌, ◌++◌, ◌+◌, ◌-◌, ◌%◌, ◌^◌, ◌≤◌, [], IfOk, IfSome, OnOk};
ghost use Rattle.analysis_choices.specs.Cuts.{back, left_cuts, right_cuts, round_cuts};
ghost use Rattle.analysis_choices.specs.Choice as of;
ghost use Rattle.analysis_choices.specs.Comparisons.{in_list};

use crate::comparison::CellComparison;
use std::alloc::{AllocError as NoMemory, Global};
use word_operations::WordComparison;

/// Puts a number among ascending ones, where it is not there yet.
fn put_cut(cuts: &mut Vec<u64>, n: u64) -> Result<(), NoMemory>
    ensures { OnOk result (cuts.new.items ≡ of.with_cut n cuts.old.items) }
{
    for i in 0..cuts.len() {
        let other = cuts[i];
        if n == other {
            return Ok(());
        }
        if n < other {
            return Ok(cuts.insert(i, n)?);
        }
    }
    Ok(cuts.push(n)?)
}

/// These numbers, ascending and without doubles, those that cut off a number.
fn ascending(alloc: Global, cuts: &[u64]) -> Result<Vec<u64>, NoMemory>
    ensures { IfOk result (λ r. r.items ≡ of.ascending cuts.now) }
{
    let mut out = Vec::new(alloc);
    for cut in cuts {
        if *cut > 0 {
            put_cut(&mut out, *cut)?;
        }
    }
    Ok(out)
}

/// The numbers at which the comparison of what stands on the left with a number may change: two of an equality, and one, twice, of an order.
fn left_ends(op: WordComparison, n: u32) -> (u64, u64)
    ensures small { (result.0 ≤ 2 ^ 32) × (result.1 ≤ 2 ^ 32) }
    ensures value { left_cuts op (n, n) ≡ result.0 ∷ result.1 ∷ [] }
{
    let n = n as u64;
    match op {
        WordComparison::Eq | WordComparison::Ne => (n, n + 1),
        WordComparison::LtU | WordComparison::LtS => (n, n),
        WordComparison::LeU | WordComparison::LeS => (n + 1, n + 1),
    }
}

/// The same of what stands on the right.
fn right_ends(op: WordComparison, n: u32) -> (u64, u64)
    ensures small { (result.0 ≤ 2 ^ 32) × (result.1 ≤ 2 ^ 32) }
    ensures value { right_cuts op (n, n) ≡ result.0 ∷ result.1 ∷ [] }
{
    let n = n as u64;
    match op {
        WordComparison::Eq | WordComparison::Ne => (n, n + 1),
        WordComparison::LtU | WordComparison::LtS => (n + 1, n + 1),
        WordComparison::LeU | WordComparison::LeS => (n, n),
    }
}

/// A number of a cell plus `plus`, as one of the cell itself.
fn back_by(plus: u32, n: u64) -> u64
    requires { n ≤ 2 ^ 32 }
    ensures { result ≡ (n + (2 ^ 32 - plus)) % 2 ^ 32 }
{
    (n + (0x1_0000_0000 - plus as u64)) % 0x1_0000_0000
}

/// Where the order goes round, if it does.
fn round(op: WordComparison, plus: u32) -> Option<u64>
    ensures value { in_list result ≡ round_cuts op plus }
    ensures small { IfSome result (λ n. n ≤ 2 ^ 32) }
{
    match op {
        WordComparison::LtS | WordComparison::LeS => Some(0x8000_0000),
        _ => { if plus == 0 { None } else { Some(0) } }
    }
}

/// The two ends of a comparison.
fn ends(c: &CellComparison) -> (u64, u64)
    ensures value { result.0 ∷ result.1 ∷ [] ≡ of.ends_of c.now }
    ensures small { (result.0 ≤ 2 ^ 32) × (result.1 ≤ 2 ^ 32) }
{
    if c.on_left {
        left_ends(c.op, c.number)
    } else {
        right_ends(c.op, c.number)
    }
}

/// The numbers at which a comparison may change its truth value, of its cell.
pub(crate) fn cuts_of(alloc: Global, c: &CellComparison) -> Result<Vec<u64>, NoMemory>
    ensures { IfOk result (λ r. r.items ≡ of.cuts_of c.now) }
{
    let plus = c.cell.plus;
    let (first, second) = ends(c);
    let mut cuts = Vec::new(alloc);
    cuts.push(back_by(plus, first))?;
    cuts.push(back_by(plus, second))?;
    if let Some(n) = round(c.op, plus) {
        cuts.push(back_by(plus, n))?;
    }
    ascending(alloc, &cuts)
}
