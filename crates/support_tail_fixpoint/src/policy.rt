//! How many turns an activation has, and what they are evaluated on.

/// How an activation's turns go on.
#[derive(Clone, Copy, Debug, PartialEq, Eq)]
pub enum Policy {
    /// The next arguments replace the old at each turn, for at most `turns` turns.
    Stop { turns: u32 },
    /// The next arguments replace the old in the first `unroll` turns. After that they are joined to
    /// the old, at most `delay` times, and then they widen the old, until the old absorb the next.
    Widen { unroll: u32, delay: u32 },
}
