//! Elements of affine relations.

ghost use Rattle.std.specs.Prelude.{◌≡◌, ◌++◌, ◌<◌, OnOk, length, slice_index, slice_get, Some, take};
ghost use Rattle.std.specs.String.{string_bytes};
ghost use Rattle.text_elements.specs.Parts.{Appended};
ghost use Rattle.text_elements.specs.Rows.{AddsTo, AreRowsOf, row_line};

use std::alloc::AllocError as NoMemory;
use support_modular_rows::Rows;
use text_words::push_spaced;

/// Appends a row, as a line.
fn push_row(out: &mut String, row: &[u32]) -> Result<(), NoMemory>
    ensures { OnOk result (string_bytes out.new ≡ string_bytes out.old ++ row_line row.now) }
{
    out.push_str("row")?;
    push_spaced(out, row)?;
    out.push_str("\n")
}

/// Appends the kept rows, each as a line.
pub(crate) fn push_rows(out: &mut String, rows: &Rows) -> Result<(), NoMemory>
    ensures { OnOk result (Appended (AreRowsOf rows.now) (string_bytes out.old) (string_bytes out.new)) }
{
    for i in 0..rows.len() {
        push_row(out, rows.row(i))?;
    }
    Ok(())
}
