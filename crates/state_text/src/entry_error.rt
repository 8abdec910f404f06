//! Why an entry is refused.

ghost use Rattle.std.specs.Prelude.{◌≡◌};
ghost use Rattle.state_text.specs.Reading.{error_at};

use crate::fault::EntryFault;
use std::alloc::{AllocError, AllocFailed};
use syntax_lexer::Text;

/// The first fault of an entry. `n` is the number of the first faulty line, from 1.
#[derive(Debug, Drop)]
pub enum EntryError {
    /// E1: the line has another form than lines of entries have.
    BadLine { n: u32 },
    /// E2: the line names an unknown cell.
    UnknownCell { n: u32 },
    /// E3: a number of the line has more bits than its cell.
    TooBig { n: u32 },
    /// E4: the line gives a cell that an earlier line gives.
    Twice { n: u32 },
    /// E5: no line is faulty, and none gives the program counter one number.
    NoPc,
    /// E6: the first cell that is given more than one number, where one state is wanted.
    NotOne { cell: Text },
    /// Memory ran out.
    NoMemory,
}

impl EntryFault {
    /// The error of a text whose first faulty line is number `n`.
    pub(crate) fn at(self, n: u32) -> EntryError
        ensures { result ≡ error_at n self }
    {
        match self {
            EntryFault::Form => EntryError::BadLine { n },
            EntryFault::Unknown => EntryError::UnknownCell { n },
            EntryFault::TooBig => EntryError::TooBig { n },
        }
    }
}

impl From<AllocError> for EntryError {
    ghost use Rattle.std.specs.Prelude.{◌≡◌};
    ghost use Rattle.state_text.specs.declared.entry_error.EntryError.TheVariants.{NoMemory};

    ghost from_gives = { λ _ e. e ≡ NoMemory };

    fn from(_error: AllocError) -> EntryError {
        EntryError::NoMemory
    }
}

impl<T: Drop> From<AllocFailed<T>> for EntryError {
    ghost use Rattle.std.specs.Prelude.{◌≡◌};
    ghost use Rattle.state_text.specs.declared.entry_error.EntryError.TheVariants.{NoMemory};

    ghost from_gives = { λ _ e. e ≡ NoMemory };

    fn from(_error: AllocFailed<T>) -> EntryError {
        EntryError::NoMemory
    }
}
