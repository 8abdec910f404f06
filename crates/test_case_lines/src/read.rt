//! What is read of texts.

ghost use Rattle.std.specs.Prelude.{◌≡◌, IfOk, Ok};

use std::alloc::{AllocError as NoMemory, AllocFailed};

/// Why a text gives nothing.
#[derive(Clone, Copy)]
pub enum Unread {
    /// It is none of its kind.
    No,
    NoMemory,
}

impl From<NoMemory> for Unread {
    fn from(_error: NoMemory) -> Unread {
        Unread::NoMemory
    }
}

impl<T: Drop> From<AllocFailed<T>> for Unread {
    fn from(_error: AllocFailed<T>) -> Unread {
        Unread::NoMemory
    }
}

/// What a text gives.
pub type Read<T> = Result<T, Unread>;

/// What a call gave that fails for want of memory alone.
pub fn given<T>(made: Result<T, NoMemory>) -> Read<T>
    ensures { IfOk result (λ x. made ≡ Ok x) }
{
    Ok(made?)
}

/// What stands already and what is read next, if it is.
///
/// The first goes by value, and is let go here where nothing is read, so that a caller holds none of it then.
pub fn both<T: Drop, U: Drop>(before: T, next: Read<U>) -> Read<(T, U)>
    ensures { IfOk result (λ r. (r.0 ≡ before) × (next ≡ Ok r.1)) }
{
    Ok((before, next?))
}
