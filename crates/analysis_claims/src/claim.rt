//! Claims of the states at an address.

use semantics_values::KeyAt;

/// A claim: what is said of every state that a run has at an address.
#[derive(Debug, Drop)]
pub enum Claim {
    /// The number of a cell lies in a range, ends included.
    Range {
        at: u32,
        field: u32,
        key: KeyAt,
        lo: u64,
        hi: u64,
    },
    /// A number and multiples of cells add to 0, modulo 2^32. A part is how often, the number of a field, and a key.
    Sum {
        at: u32,
        c: u32,
        parts: Vec<(u32, u32, KeyAt)>,
    },
    /// The number of a cell is not this one.
    Differs {
        at: u32,
        field: u32,
        key: KeyAt,
        value: u64,
    },
    /// No run comes to the address.
    Never {
        at: u32,
    },
}
