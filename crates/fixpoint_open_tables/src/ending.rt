//! How the block of an open address ends.

/// Why a block has neither next addresses nor exits, though its instruction may go on.
#[derive(Drop)]
pub enum Ending<W> {
    /// The code word has no decoding.
    Undecodable { word: u32 },
    /// The new counter may be too many addresses: the word that it is.
    Open { shown: W },
}
