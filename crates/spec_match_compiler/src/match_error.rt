//! Why a match is refused.

use crate::pattern::Pattern;
use std::alloc::{AllocError, AllocFailed};

/// Why a match is refused.
#[derive(Debug, Drop)]
pub enum MatchError {
    /// Some value meets no row; each that meets the example is one.
    NotExhaustive { example: Pattern },
    /// Every value meets some row, and each that meets this row, from 0, meets one above it. No
    /// row above is such a row.
    Useless { row: u32 },
    /// Memory ran out.
    NoMemory,
}

impl From<AllocError> for MatchError {
    ghost use Rattle.std.specs.Prelude.{◌≡◌};
    ghost use Rattle.spec_match_compiler.specs.declared.match_error.MatchError.TheVariants.{NoMemory};

    ghost from_gives = { λ _ e. e ≡ NoMemory };

    fn from(_error: AllocError) -> MatchError {
        MatchError::NoMemory
    }
}

impl<T: Drop> From<AllocFailed<T>> for MatchError {
    ghost use Rattle.std.specs.Prelude.{◌≡◌};
    ghost use Rattle.spec_match_compiler.specs.declared.match_error.MatchError.TheVariants.{NoMemory};

    ghost from_gives = { λ _ e. e ≡ NoMemory };

    fn from(_error: AllocFailed<T>) -> MatchError {
        MatchError::NoMemory
    }
}
