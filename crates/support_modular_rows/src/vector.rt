//! Vectors of 65 numbers modulo 2^32.

ghost use Rattle.std.specs.Prelude.{◌≡◌, ℕ, ◌+◌, ◌*◌, ◌%◌, ◌^◌, ◌<◌, slice_index, length, ◌≢◌, ◌≤◌};
ghost use Rattle.support_modular_rows.specs.Reduction.{Normalised};
ghost use Rattle.support_modular_rows.specs.Submodule.{unit_row};

use super::numbers::{inverse, odd_part};

/// How many numbers a vector has room for.
pub(crate) const WIDTH: usize = 65;

/// A vector; the numbers past the last column are 0.
pub(crate) type Vector = [u32; 65];

/// The vector with 1 in the column.
pub(crate) fn unit_vector(column: usize) -> Vector
    requires { column < 65 }
    ensures value { result ≡ unit_row 65 column }
    ensures len { length result ≡ 65 }
{
    let mut vector = [0; WIDTH];
    vector[column] = 1;
    vector
}

/// The numbers of the row, and 0 in the other columns.
pub(crate) fn vector_of(row: &[u32]) -> Vector
    requires { length row.now ≤ 65 }
    ensures { (i : ℕ) → i < length row.now → slice_index result i ≡ slice_index row.now i }
{
    let mut vector = [0; WIDTH];
    for i in 0..row.len() {
        vector[i] = row[i];
    }
    vector
}

/// The vector x + q·r.
pub(crate) fn add_multiple(x: &Vector, q: u32, r: &Vector) -> Vector
    ensures { (i : ℕ) → i < 65 → slice_index result i ≡ (slice_index x.now i + q * slice_index r.now i) % 2 ^ 32 }
{
    let mut sum = *x;
    for i in 0..WIDTH {
        sum[i] = x[i].wrapping_add(q.wrapping_mul(r[i]));
    }
    sum
}

/// An invertible multiple of the vector that has a power of two in the column.
pub(crate) fn normalise(x: &Vector, column: usize) -> Vector
    requires within { column < 65 }
    requires entry { slice_index x.now column ≢ 0 }
    ensures { Normalised x.now column result }
{
    let entry = x[column];
    let unit = inverse(odd_part(entry));
    add_multiple(&[0; WIDTH], unit, x)
}
