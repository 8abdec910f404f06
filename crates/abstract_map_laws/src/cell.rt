//! Cells of maps.

/// What a map has at a key: a word, and a note of where it came from.
#[derive(Debug, PartialEq, Eq, Hash, Drop)]
pub struct AbstractCell<W, N> {
    /// The word.
    pub word: W,
    /// Where it may come from.
    pub note: N,
}
