//! Elements of affine relations as text.

ghost use Rattle.std.specs.Prelude.{◌<◌, length};

use std::alloc::{AllocError as NoMemory, Global};
use support_modular_rows::Rows;

/// Takes so many times a row from another.
fn take_times(row: &mut [u32], times: u32, other: &[u32]) {
    for i in 0..row.len().min(other.len()) {
        row[i] = row[i].wrapping_sub(times.wrapping_mul(other[i]));
    }
}

/// Makes the entry of a row below that with which another begins.
fn reduce(row: &mut [u32], other: &[u32]) {
    for i in 0..row.len().min(other.len()) {
        if other[i] != 0 {
            let times = row[i] / other[i];
            take_times(row, times, other);
            return;
        }
    }
}

/// Kept row i, with each entry below that with which a kept row of a later column begins. Those are the rows before it.
fn reduced(alloc: Global, rows: &Rows, i: u32) -> Result<Vec<u32>, NoMemory>
    requires { i < length rows.now.rows }
{
    let mut row = Vec::from_slice(alloc, rows.row(i))?;
    for other in (0..i).rev() {
        reduce(&mut row, rows.row(other));
    }
    Ok(row)
}

/// Appends a row, as a line.
fn push_row(out: &mut String, row: &[u32]) -> Result<(), NoMemory> {
    out.push_str("    row")?;
    for n in row {
        write!(out, " {n:08x}")?;
    }
    out.push_str("\n")
}

/// Appends kept row i, reduced, as a line.
fn push_reduced(alloc: Global, out: &mut String, rows: &Rows, i: u32) -> Result<(), NoMemory>
    requires { i < length rows.now.rows }
{
    let row = reduced(alloc, rows, i)?;
    push_row(out, &row)
}

/// Appends the kept rows, reduced, each as a line.
pub(crate) fn push_rows(alloc: Global, out: &mut String, rows: &Rows) -> Result<(), NoMemory> {
    for i in 0..rows.len() {
        push_reduced(alloc, out, rows, i)?;
    }
    Ok(())
}
