//! What a checker says of a table.

/// That a table is closed, or the first part that fails.
#[derive(Drop)]
pub enum Verdict<W> {
    Accepted,
    /// No element at the entry's counter absorbs the entry's.
    Entry,
    /// A target's element is missing, or does not absorb the post element.
    Open { from: u32, to: u32 },
    /// The code word at a listed address has no decoding.
    Undecodable { at: u32, word: u32 },
    /// The transfer at a listed address has too many targets.
    TooManyTargets { at: u32, shown: W },
    /// The listed next addresses and exits are not those of the transfer.
    Targets { at: u32 },
    /// The listed uses are not those of the transfer.
    Use { at: u32 },
}
