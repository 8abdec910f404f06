//! Why a file of cases is not run.

use state_text::EntryError;
use std::alloc::{AllocError, AllocFailed};
use std::io;
use thiserror::Error;

/// Why a file of cases is not run to its end.
#[derive(Debug, Drop, Error)]
pub enum FileError {
    /// It could not be read, or nothing could be printed.
    #[error("{0}")]
    Io(io::Error),
    /// It is not UTF-8.
    #[error("no text")]
    NotText,
    /// Its name is that of no instruction set.
    #[error("no instruction set has this name")]
    Name,
    /// The specification of its instruction set is not accepted.
    #[error("the specification is not accepted")]
    Specification,
    /// This line, counted from 1, does not stand in a file of cases, or not here.
    #[error("line {0} is none of a file of cases")]
    Line(usize),
    /// No step could be tried of the case that ends on this line.
    #[error("the case above line {0}: {1}")]
    Case(usize, CaseError),
    /// Behind its last line a case has no end.
    #[error("the last line has no end")]
    Open,
    /// Memory ran out.
    #[error("out of memory")]
    NoMemory,
}

/// Why no step could be tried of a case.
#[derive(Debug, Drop, Error)]
pub enum CaseError {
    /// The state before the step has more bytes than an entry may have.
    #[error("the state before it is too long")]
    Long,
    /// It is not one state.
    #[error("the state before it: {0:?}")]
    Entry(EntryError),
    /// No word of code stands at its program counter.
    #[error("no code at the program counter")]
    Code,
    /// Memory ran out.
    #[error("out of memory")]
    NoMemory,
}

impl From<io::Error> for FileError {
    fn from(error: io::Error) -> Self {
        FileError::Io(error)
    }
}

impl From<AllocError> for FileError {
    fn from(_: AllocError) -> Self {
        FileError::NoMemory
    }
}

impl<T: Drop> From<AllocFailed<T>> for FileError {
    fn from(_: AllocFailed<T>) -> Self {
        FileError::NoMemory
    }
}

impl From<EntryError> for CaseError {
    fn from(error: EntryError) -> Self {
        CaseError::Entry(error)
    }
}

impl From<AllocError> for CaseError {
    fn from(_: AllocError) -> Self {
        CaseError::NoMemory
    }
}

impl<T: Drop> From<AllocFailed<T>> for CaseError {
    fn from(_: AllocFailed<T>) -> Self {
        CaseError::NoMemory
    }
}
