//! A cell of a state between two numbers.

use semantics_values::KeyAt;

/// A cell of a state between two numbers, both included.
#[derive(Clone, Copy)]
pub struct CellRange {
    /// Its field, counted from 1; 0 is the counter, which is no part of an element and is not cut.
    pub place: u32,
    pub key: KeyAt,
    pub low: u64,
    pub high: u64,
}
