//! Why words ask for nothing.

ghost use Rattle.std.specs.Prelude.{◌≡◌};
ghost use Rattle.support_command_line.specs.declared.words_error.WordsError.TheVariants.{NoMemory};

use std::alloc::{AllocError, AllocFailed};

/// Why words ask for nothing.
#[derive(Clone, Copy, Debug)]
pub enum WordsError {
    /// They have no form.
    BadWords,
    /// Memory ran out.
    NoMemory,
}

impl From<AllocError> for WordsError {
    ghost from_gives = { λ _ error. error ≡ NoMemory };

    fn from(_: AllocError) -> Self {
        WordsError::NoMemory
    }
}

impl<T: Drop> From<AllocFailed<T>> for WordsError {
    ghost from_gives = { λ _ error. error ≡ NoMemory };

    fn from(_: AllocFailed<T>) -> Self {
        WordsError::NoMemory
    }
}
