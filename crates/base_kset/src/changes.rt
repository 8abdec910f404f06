//! What becomes of one number.

ghost use Rattle.std.specs.Prelude.{◌≡◌, ◌<◌, ◌^◌};
ghost use Rattle.base_kset.specs.Changes.{changed, IsChange, width_before, width_after};

use word_operations::{UnaryOperation, op1, sext, trunc, zext};

/// An operation on one word, or a cast.
#[derive(Clone, Copy)]
pub(crate) enum Change {
    Operation { op: UnaryOperation, w: u32 },
    Zero { from: u32, to: u32 },
    Sign { from: u32, to: u32 },
    Cut { from: u32, to: u32 },
}

impl Change {
    pub(crate) fn of(self, x: u64) -> u64
        requires change { IsChange self }
        requires word { x < 2 ^ width_before self }
        ensures value { result ≡ changed self x }
    {
        match self {
            Change::Operation { op, w } => op1(op, w, x),
            Change::Zero { from, to } => zext(from, to, x),
            Change::Sign { from, to } => sext(from, to, x),
            Change::Cut { from, to } => trunc(from, to, x),
        }
    }
}
