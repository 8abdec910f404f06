//! Operations bit by bit.

ghost use Rattle.std.specs.Prelude.{◌≡◌, ◌<◌, ◌^◌};
ghost use Rattle.word_operations.specs.Op1.{op1_of};
ghost use Rattle.word_operations.specs.Width.{IsWidth};

use super::kinds::UnaryOperation;
use super::width::greatest;

pub(crate) fn not(w: u32, x: u64) -> u64
    requires width { IsWidth w }
    requires word { x < 2 ^ w }
    ensures { result ≡ op1_of UnaryOperation.Not w x }
{
    greatest(w) - x
}
