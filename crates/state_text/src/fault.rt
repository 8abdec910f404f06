//! What can be wrong with a line by itself.

/// The line has no form of an entry's lines; it names no cell of the states; or a number on it is too big.
#[derive(Clone, Copy, Debug, PartialEq, Eq)]
pub enum EntryFault {
    Form,
    Unknown,
    TooBig,
}
