//! What a step of a worklist comes to.

/// The transfer was made; or the code word has no decoding; or there are too many targets.
#[derive(Drop)]
pub(crate) enum WorklistStep<W> {
    Moved,
    Undecodable { word: u32 },
    TooMany { shown: W },
}
