//! What a line says.

use crate::fault::EntryFault;
use semantics_values::{GivenNumber, KeyAt};

/// Nothing; the number of the program counter; what is given of a cell; bytes for the cells of a map from a key on; or
/// a fault that does not depend on other lines.
#[derive(Debug, Drop)]
pub(crate) enum Said {
    Nothing,
    Counter(GivenNumber),
    Cell {
        field: u32,
        key: KeyAt,
        given: GivenNumber,
    },
    Run {
        field: u32,
        first: u64,
        bytes: Vec<u8>,
    },
    Faulty(EntryFault),
}
