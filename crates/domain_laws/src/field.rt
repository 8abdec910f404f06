//! Fields of states.

/// A field of a state behind the program counter.
#[derive(Clone, Copy, Debug, PartialEq, Eq, Drop)]
pub enum Field {
    /// A word of so many bits.
    Word {
        w: u32,
    },
    /// A map: its type, how many keys that has (they are the numbers below), the bits of its words, and what a key has by default.
    Map {
        map: u32,
        keys: u64,
        width: u32,
        default: u64,
    },
}
