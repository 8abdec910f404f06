//! Rows of affine relations.

ghost use Rattle.std.specs.Prelude.{◌≡◌, ◌≤◌, ◌+◌, ℕ, List, IfOk, length, option_map};
ghost use Rattle.domain_affine_element_laws.specs.Elements.{SameMembers};
ghost use Rattle.text_part_readers.specs.Rows as defined;
ghost use Rattle.text_part_readers.specs.Rows.{IsRowRead, rows_read};

use std::alloc::{AllocError as NoMemory, Global};
use support_lists::pushed;
use support_modular_rows::Rows;
use text_lines::LinesOf;
use text_words::{number_in, text_behind};

/// A number of 32 bits behind a space, and what stands behind it.
fn number_behind_space(text: &[u8]) -> Option<(u32, &[u8])>
    ensures { option_map (λ p. (p.0, p.1.now)) result ≡ defined.spaced text.now }
{
    let front = text_behind(b" ", text)?;
    if front.len() < 8 {
        return None;
    }
    let (digits, rest) = front.split_at(8);
    let number = number_in(32, digits)?;
    Some((number as u32, rest))
}

/// The numbers of a row in its line, `row N N ..`.
fn row_said(alloc: Global, k: u32, line: &[u8]) -> Result<Option<Vec<u32>>, NoMemory>
    requires { k ≤ 64 }
    ensures { IfOk result (λ r. option_map (λ xs. xs.items) r ≡ defined.row_said k line.now) }
{
    let Some(mut text) = text_behind(b"row", line) else {
        return Ok(None);
    };
    let mut row = Vec::with_capacity(alloc, k as usize + 1)?;
    for _i in 0..k + 1 {
        let Some((number, rest)) = number_behind_space(text) else {
            return Ok(None);
        };
        row = pushed(row, Ok(number))?;
        text = rest;
    }
    if text.is_empty() {
        Ok(Some(row))
    } else {
        Ok(None)
    }
}

/// Adds the row of the next line, where that is one of a row that is new, and says whether it is.
fn read_row(
    alloc: Global,
    k: u32,
    rows: &mut Rows,
    lines: &mut LinesOf<'_>,
) -> Result<bool, NoMemory>
    requires few { k ≤ 64 }
    requires cells { rows.old.k ≡ k }
    ensures same { rows.new.k ≡ k }
    ensures row { IfOk result (λ more. (given : List (List ℕ)) → SameMembers k rows.old.rows given → IsRowRead k given lines.old more rows.new.rows lines.new) }
{
    let Some((line, rest)) = lines.next() else {
        return Ok(false);
    };
    let Some(row) = row_said(alloc, k, line)? else {
        return Ok(false);
    };
    let more = rows.insert(&row);
    if more {
        *lines = rest;
    }
    Ok(more)
}

/// Reads rows over k cells, each of which adds to those before it, as many as come.
pub fn read_rows(alloc: Global, k: u32, lines: &mut LinesOf<'_>) -> Result<Rows, NoMemory>
    requires { k ≤ 64 }
    ensures cells { IfOk result (λ r. r.k ≡ k) }
    ensures rows { IfOk result (λ r. SameMembers k r.rows (rows_read k lines.old).0) }
    ensures lines { IfOk result (λ r. lines.new ≡ (rows_read k lines.old).1) }
{
    let mut rows = Rows::new(alloc, k)?;
    'rows: loop {
        if !read_row(alloc, k, &mut rows, lines)? {
            return Ok(rows);
        }
    }
}
