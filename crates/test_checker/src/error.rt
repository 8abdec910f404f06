//! Why a file of cases is not checked.

use std::alloc::{AllocError, AllocFailed};
use std::io;
use thiserror::Error;

/// Why a file of cases is not checked.
#[derive(Debug, Drop, Error)]
pub enum FileError {
    /// It could not be read, or nothing could be printed.
    #[error("{0}")]
    Io(io::Error),
    /// It is not UTF-8.
    #[error("no text")]
    NotText,
    /// This line, counted from 1, is none of a file of cases.
    #[error("line {0} is none of a file of cases")]
    Line(usize),
    /// Memory ran out.
    #[error("out of memory")]
    NoMemory,
}

impl From<io::Error> for FileError {
    fn from(error: io::Error) -> Self {
        FileError::Io(error)
    }
}

impl From<AllocError> for FileError {
    fn from(_: AllocError) -> Self {
        FileError::NoMemory
    }
}

impl<T: Drop> From<AllocFailed<T>> for FileError {
    fn from(_: AllocFailed<T>) -> Self {
        FileError::NoMemory
    }
}
