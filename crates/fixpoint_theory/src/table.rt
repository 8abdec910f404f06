//! Tables of an analysis.

use base_trait::Use;
use std::collections::BTreeMap;

/// What is listed of an address: its element, the next code addresses, the addresses past the code that
/// a step may lead to, and the uses.
#[derive(Drop)]
pub struct Block<E> {
    pub elem: E,
    pub next: Vec<u32>,
    pub exits: Vec<u32>,
    pub uses: Vec<Use>,
}

/// The blocks by their addresses.
pub struct Table<E> {
    pub blocks: BTreeMap<u32, Block<E>>,
}

/// Written out, so that what lets a table go stands once for each element, and not once more in each crate where one is let go.
impl<E: Drop> Drop for Table<E> {
    fn drop(self) {
        let Table { blocks: _blocks } = self;
    }
}
