//! Rows by their leading columns.

ghost use Rattle.std.specs.Prelude.{◌≡◌, ℕ, ◌*◌, ◌^◌, ◌<◌, ◌≤◌, length, [], ◌∷◌, IfNone, IfOk, IfSome, MatchBool, replicate, slice_index, slice_index_or};
ghost use Rattle.support_modular_rows.specs.Multiples.{AreLeastMultiples, AreMultiples, IsOther, OthersAreZero};
ghost use Rattle.support_modular_rows.specs.Reduction.{Reduced, InSpan, divisor_of, SameSpan, kept_from, IsPlace, HasExponents};

use super::numbers::{canceller, exponent, negated_quotient};
use super::vector::{Vector, WIDTH, add_multiple, normalise, vector_of};
use std::alloc::{AllocError, Global};

/// What generates the multiples of the leading entry: itself, or 2^32 where there is none.
pub(crate) fn divisor(entry: u32) -> u64
    ensures value { result ≡ divisor_of entry }
    ensures bound { result ≤ 2 ^ 32 }
{
    if entry == 0 {
        0x1_0000_0000
    } else {
        entry as u64
    }
}

/// Memory for n rows, each of zeros.
pub(crate) fn zero_slots(alloc: Global, n: usize) -> Result<Vec<Vector>, AllocError>
    ensures { IfOk result (λ v. v.items ≡ replicate n (replicate 65 0)) }
{
    let mut slots = Vec::with_capacity(alloc, n)?;
    for i in 0..n {
        slots.push([0; WIDTH])?;
    }
    Ok(slots)
}

/// Whether the vector is in the span of the rows: each row in turn brings its column to 0.
pub(crate) fn spans(rows: &[Vector], row: &Vector) -> bool
    requires few { length rows.now ≤ 65 }
    requires reduced { Reduced rows.now }
    ensures { MatchBool result (InSpan rows.now row.now) (InSpan rows.now row.now → ⊥) }
{
    let mut x = *row;
    for i in 0..rows.len() {
        let d = divisor(rows[i][i]);
        let Some(quotient) = canceller(x[i], d) else {
            return false;
        };
        x = add_multiple(&x, quotient, &rows[i]);
    }
    true
}

/// Takes the vector into the span of the rows.
pub(crate) fn absorb(rows: &mut [Vector], row: &Vector)
    requires few { length rows.old ≤ 65 }
    requires reduced { Reduced rows.old }
    ensures reduced { Reduced rows.new }
    ensures span { SameSpan (length rows.old) (row.now ∷ rows.old) rows.new }
{
    let mut x = *row;
    for i in 0..rows.len() {
        let d = divisor(rows[i][i]);
        if let Some(quotient) = canceller(x[i], d) {
            x = add_multiple(&x, quotient, &rows[i]);
        } else {
            let leading = normalise(&x, i);
            let quotient = negated_quotient(d, divisor(leading[i]));
            x = add_multiple(&rows[i], quotient, &leading);
            rows[i] = leading;
        }
    }
}

/// Whether the row is in the span of the rows.
pub(crate) fn holds(rows: &[Vector], row: &[u32]) -> bool
    requires few { length rows.now ≤ 65 }
    requires reduced { Reduced rows.now }
    requires size { length row.now ≡ length rows.now }
    ensures { MatchBool result (InSpan rows.now row.now) (InSpan rows.now row.now → ⊥) }
{
    spans(rows, &vector_of(row))
}

/// Adds the row to the span, and says whether it was not there before.
pub(crate) fn take_in(rows: &mut [Vector], row: &[u32]) -> bool
    requires few { length rows.old ≤ 65 }
    requires reduced { Reduced rows.old }
    requires size { length row.now ≡ length rows.old }
    ensures reduced { Reduced rows.new }
    ensures span { SameSpan (length rows.old) (row.now ∷ rows.old) rows.new }
    ensures grew { MatchBool result (InSpan rows.old row.now → ⊥) (InSpan rows.old row.now) }
{
    let x = vector_of(row);
    if spans(rows, &x) {
        return false;
    }
    absorb(rows, &x);
    true
}

/// How many rows are not 0.
pub(crate) fn kept_count(rows: &[Vector]) -> u32
    requires { length rows.now ≤ 65 }
    ensures { result ≡ length (kept_from (length rows.now) 0 rows.now) }
{
    let mut count = 0;
    for c in 0..rows.len() {
        if rows[c][c] != 0 {
            count += 1;
        }
    }
    count
}

/// The place of the kept row i: from the last place down, the rows that are 0 are left out.
pub(crate) fn kept_place(rows: &[Vector], i: u32) -> usize
    requires few { length rows.now ≤ 65 }
    requires within { i < length (kept_from (length rows.now) 0 rows.now) }
    ensures { IsPlace (length rows.now) rows.now i result }
{
    let mut seen = 0;
    for back in 0..rows.len() {
        let c = rows.len() - 1 - back;
        if rows[c][c] != 0 {
            if seen == i {
                return c;
            }
            seen += 1;
        }
    }
    unreachable!()
}

/// The sum of the exponents of the rows' divisors.
pub(crate) fn exponents(rows: &[Vector]) -> u64
    requires few { length rows.now ≤ 65 }
    requires reduced { Reduced rows.now }
    ensures { HasExponents rows.now result }
{
    let mut total = 0;
    for c in 0..rows.len() {
        total += u64::from(exponent(divisor(rows[c][c])));
    }
    total
}

/// Whether each row but the first is 0 in the column.
fn others_are_zero(rows: &[Vector], column: usize) -> bool
    requires { column < 65 }
    ensures { MatchBool result (OthersAreZero rows.now column) (IsOther rows.now column) }
{
    for i in 1..rows.len() {
        if rows[i][column] != 0 {
            return false;
        }
    }
    true
}

/// The first row's number in the column.
fn first_number(rows: &[Vector], column: usize) -> u32
    requires some { 0 < length rows.now }
    requires column { column < 65 }
    ensures value { result ≡ slice_index (slice_index_or rows.now 0 []) column }
    ensures below { result < 2 ^ 32 }
{
    rows[0][column]
}

/// The least c such that in each row the column's number is c times the first. Each row but the first begins with 0,
/// and the first with 0, where it is all 0, or a power of two.
pub(crate) fn multiple(rows: &[Vector], column: usize) -> Option<u32>
    requires few { length rows.now ≤ 65 }
    requires reduced { Reduced rows.now }
    requires column { column < length rows.now }
    ensures some { IfSome result (λ c. AreLeastMultiples rows.now column c) }
    ensures none { IfNone result ((c : ℕ) → AreMultiples rows.now column c → ⊥) }
{
    if !others_are_zero(rows, column) {
        return None;
    }
    let first = rows[0][0];
    let number = first_number(rows, column);
    if first == 0 {
        return Some(0);
    }
    if number % first != 0 {
        return None;
    }
    Some(number / first)
}
