//! The lines that say why an entry is refused.

ghost use Rattle.std.specs.Prelude.{◌≡◌, IfOk};
ghost use Rattle.std.specs.String.{string_bytes};
ghost use Rattle.state_text.specs.FaultLines.{fault_line};

use crate::entry_error::EntryError;
use std::alloc::{AllocError, Global};

impl EntryError {
    /// The line that says which fault this is, with a line end: `entry N E1` to `entry N E4`, `entry 0 E5` or
    /// `entry 0 E6 CELL`. Want of memory has the empty one.
    pub fn fault_line(&self, alloc: Global) -> Result<String, AllocError>
        ensures { IfOk result (λ text. string_bytes text ≡ fault_line self.now) }
    {
        match self {
            EntryError::BadLine { n } => format!(in alloc; "entry {n} E1\n"),
            EntryError::UnknownCell { n } => format!(in alloc; "entry {n} E2\n"),
            EntryError::TooBig { n } => format!(in alloc; "entry {n} E3\n"),
            EntryError::Twice { n } => format!(in alloc; "entry {n} E4\n"),
            EntryError::NoPc => format!(in alloc; "entry 0 E5\n"),
            EntryError::NotOne { cell } => {
                let cell = cell.as_str();
                format!(in alloc; "entry 0 E6 {cell}\n")
            }
            EntryError::NoMemory => Ok(String::new(alloc)),
        }
    }
}
