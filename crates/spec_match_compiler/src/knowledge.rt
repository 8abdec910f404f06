//! What is known of a value.

use crate::shape::Shape;
use smallvec::SmallVec;

/// What is known of a value after some tests.
#[derive(Drop)]
pub enum Knowledge {
    /// Its shape alone.
    Unknown(Shape),
    /// The truth value that it is.
    Flag(bool),
    /// The number that it is.
    Word(u64),
    /// The numbers of its width that it isn't, in the order in which they were tested.
    Others { width: u32, tested: Vec<u64> },
    /// Its constructor, and what is known of each field.
    Made { case: u32, parts: Vec<Knowledge> },
}

/// What a test asks of the value at a position.
#[derive(Drop)]
pub enum Test {
    /// Whether it is true.
    Flag,
    /// Whether it is this number, where it is none of those tested before.
    Word {
        width: u32,
        tested: Vec<u64>,
        value: u64,
    },
    /// Which constructor of this type it has.
    Case(u32),
}

/// A position that is still to be tested, and the test.
#[derive(Drop)]
pub struct PendingTest {
    pub at: SmallVec<(u32, u32), 8>,
    pub test: Test,
}
