//! A machine with one number from 0 to 99, and intervals of it.

/// The numbers from `low` to `high`.
#[derive(Clone, Copy, PartialEq, Eq)]
pub(crate) struct Interval {
    pub(crate) low: u32,
    pub(crate) high: u32,
}

/// The greatest number.
pub(crate) const TOP: u32 = 99;

/// The number at which forks decide, and intervals are split.
pub(crate) const HALF: u32 = 50;

/// An instruction of four bytes.
#[derive(Clone, Copy)]
pub(crate) enum Instr {
    /// Sets the number.
    Set(u32),
    /// Adds to the number, up to the greatest. It reads the number.
    Add(u32),
    /// Goes on at an address.
    Goto(u32),
    /// Goes on at an address where the number is below 50, and else behind the instruction: it leads to one of both where
    /// the interval tells which. It reads the number.
    Fork(u32),
    /// Goes on wherever the number says. It reads the number.
    Wild,
    /// Never comes to an end.
    Spin,
    /// Has no decoding.
    Bad,
}

/// A code word: its address, and the instruction there.
#[derive(Clone, Copy)]
pub(crate) struct Word {
    pub(crate) at: u32,
    pub(crate) instr: Instr,
}

/// A state of the machine.
#[derive(Clone, Copy)]
pub(crate) struct State {
    pub(crate) counter: u32,
    pub(crate) number: u32,
}
