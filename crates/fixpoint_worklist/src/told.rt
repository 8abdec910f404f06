//! What a transfer tells of an address.

use base_trait::Use;

/// What a transfer tells of an address besides the element: the next code addresses, the exits, and the uses.
#[derive(Drop)]
pub(crate) struct Told {
    pub(crate) next: Vec<u32>,
    pub(crate) exits: Vec<u32>,
    pub(crate) uses: Vec<Use>,
}
