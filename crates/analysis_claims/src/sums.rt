//! Sums of tracked cells.

ghost use Rattle.std.specs.Prelude.{◌≡◌, ◌%◌, ◌==◌, ◌<◌, ◌^◌, length};
ghost use Rattle.support_modular_rows.specs.Submodule.{dot};
ghost use Rattle.domain_affine_laws.specs.Opened as opened;
ghost use Rattle.analysis_query_laws.specs.Affine as told;
ghost use Rattle.analysis_query_laws.specs.Answers as told_of;

use domain_cells::is_key;
use semantics_values::KeyAt;
use support_modular_rows::{Form, Rows};

/// Whether a cell is that of a field and a key.
fn is_cell(cell: (u32, KeyAt), field: u32, key: KeyAt) -> bool
    ensures { result ≡ opened.is_cell cell field key }
{
    cell.0 == field && is_key(cell.1, key)
}

/// The place of a cell among cells.
pub(crate) fn column_of(cells: &[(u32, KeyAt)], field: u32, key: KeyAt) -> Option<u32>
    requires { length cells.now < 2 ^ 32 }
    ensures { result ≡ told_of.column_of cells.now field key }
{
    for i in 0..cells.len() {
        if is_cell(cells[i], field, key) {
            return Some(i as u32);
        }
    }
    None
}

/// Whether a form is 0 over a row.
fn is_zero(form: &Form, row: &[u32]) -> bool
    ensures { result ≡ (dot form.now row.now % 2 ^ 32 == 0) }
{
    form.value(row) == 0
}

/// Whether a form is 0 over each row.
pub(crate) fn meets_all(rows: &Rows, form: &Form) -> bool
    ensures { result ≡ told.meets_all rows.now.rows form.now }
{
    for i in 0..rows.len() {
        if !is_zero(form, rows.row(i)) {
            return false;
        }
    }
    true
}
