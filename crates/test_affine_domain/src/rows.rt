//! Rows as text: their numbers in hex, with a blank between two and a `;` between two rows.

ghost use Rattle.std.specs.Prelude.{◌≡◌, ◌+◌, ◌≤◌, IfOk, length};

use std::alloc::Global;
use support_modular_rows::Rows;
use test_case_lines::{Read, Unread};

/// The number of a text in hex.
fn number(text: &str) -> Read<u32> {
    match u32::from_str_radix(text, 16) {
        Ok(n) => Ok(n),
        Err(_) => Err(Unread::No),
    }
}

/// A row of k + 1 numbers.
fn row_of(alloc: Global, k: u32, text: &str) -> Read<Vec<u32>>
    ensures { IfOk result (λ row. length row.items ≡ k + 1) }
{
    let mut row = Vec::new(alloc);
    for part in text.split(' ') {
        row.push(number(part)?)?;
    }
    if row.len() == k as usize + 1 {
        Ok(row)
    } else {
        Err(Unread::No)
    }
}

/// The element with a row more, if that is read.
fn with_row(mut rows: Rows, row: Read<Vec<u32>>) -> Read<Rows>
    requires { IfOk row (λ row. length row.items ≡ rows.k + 1) }
    ensures { IfOk result (λ r. r.k ≡ rows.k) }
{
    let row = row?;
    let _grew = rows.insert(&row);
    Ok(rows)
}

/// The element over k cells that rows generate.
pub(crate) fn rows_of(alloc: Global, k: u32, text: &str) -> Read<Rows>
    requires few { k ≤ 64 }
    ensures { IfOk result (λ r. r.k ≡ k) }
{
    let mut rows = Rows::new(alloc, k)?;
    for part in text.split(';') {
        rows = with_row(rows, row_of(alloc, k, part))?;
    }
    Ok(rows)
}
