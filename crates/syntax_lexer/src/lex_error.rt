//! The faults of a source.

ghost use Rattle.std.specs.Prelude.{◌≡◌, IfOk};
ghost use Rattle.std.specs.String.{string_bytes};
ghost use Rattle.syntax_lexer.specs.FaultLines.{fault_line};

use std::alloc::{AllocError, AllocFailed, Global};

/// The first fault of a source. `at` is the byte offset of the first byte of its place.
#[derive(Clone, Copy, Debug, PartialEq, Eq)]
pub enum LexError {
    /// L1: a byte that begins no token and no separator.
    BadByte { at: u32 },
    /// L2: a name of more than 64 bytes.
    LongName { at: u32 },
    /// L3: a run of letters, digits and `_` that begins with a digit and is no number below 2^64.
    BadNumber { at: u32 },
    /// Memory ran out.
    NoMemory,
}

impl LexError {
    /// The line that says which fault this is, with a line end: `spec AT CODE`. Want of memory has the
    /// empty one.
    pub fn fault_line(self, alloc: Global) -> Result<String, AllocError>
        ensures { IfOk result (λ text. string_bytes text ≡ fault_line self) }
    {
        match self {
            LexError::BadByte { at } => format!(in alloc; "spec {at} L1\n"),
            LexError::LongName { at } => format!(in alloc; "spec {at} L2\n"),
            LexError::BadNumber { at } => format!(in alloc; "spec {at} L3\n"),
            LexError::NoMemory => Ok(String::new(alloc)),
        }
    }
}

impl From<AllocError> for LexError {
    ghost use Rattle.syntax_lexer.specs.declared.lex_error.LexError.TheVariants.{NoMemory};

    ghost from_gives = { λ _ e. e ≡ NoMemory };

    fn from(_error: AllocError) -> LexError {
        LexError::NoMemory
    }
}

impl<T: Drop> From<AllocFailed<T>> for LexError {
    ghost use Rattle.syntax_lexer.specs.declared.lex_error.LexError.TheVariants.{NoMemory};

    ghost from_gives = { λ _ e. e ≡ NoMemory };

    fn from(_error: AllocFailed<T>) -> LexError {
        LexError::NoMemory
    }
}
