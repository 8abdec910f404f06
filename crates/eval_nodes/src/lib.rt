//! The values of nodes that compute them from slots of a frame alone. Operands are read in place.
//!
//! Of `slot 0 + slot 1` on a frame of {1, 3} and {2} at 8 bits the value is {3, 5}; where a slot is not written, or holds no word of
//! the width, there is none. Nodes that go on with a stretch, or that call, have no value here; one that reads a cell of a map has its own
//! call, since it adds to the log. Each value is what `node_value` of `eval_code_meaning` gives (proofs/Plainly).
#![tactic(auto)]

mod operands;
mod plain;

pub use operands::{at_slot, copies};
pub use plain::{plain_value, read_on};
