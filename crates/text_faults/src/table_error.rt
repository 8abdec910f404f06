//! Why the text of a table is refused.

ghost use Rattle.std.specs.Prelude.{◌≡◌, IfOk};
ghost use Rattle.std.specs.String.{string_bytes};
ghost use Rattle.text_faults.specs.TableFaultLines.{fault_line};

use std::alloc::{AllocError, AllocFailed, Global};

/// The first fault of the text of a table. `line` is the number of the first faulty line, from 1; where a text ends too early it is
/// that of the line after the last.
#[derive(Clone, Copy, Debug, PartialEq, Eq, Drop)]
pub enum TableError {
    /// X1: the line is not one that the form of the table allows there.
    Form { line: u64 },
    /// X2: line 2 names another base.
    Base,
    /// X3: the line tells of another code, or of another order of the bytes of a word.
    Code { line: u64 },
    /// Memory ran out.
    NoMemory,
}

impl TableError {
    /// The line that says which fault it is, with a line end: `table N X1`. Want of memory has the empty one.
    pub fn fault_line(&self, alloc: Global) -> Result<String, AllocError>
        ensures { IfOk result (λ text. string_bytes text ≡ fault_line self.now) }
    {
        match self {
            TableError::Form { line } => format!(in alloc; "table {line} X1\n"),
            TableError::Base => String::from_str(alloc, "table 2 X2\n"),
            TableError::Code { line } => format!(in alloc; "table {line} X3\n"),
            TableError::NoMemory => Ok(String::new(alloc)),
        }
    }
}

impl From<AllocError> for TableError {
    ghost use Rattle.std.specs.Prelude.{◌≡◌};
    ghost use Rattle.text_faults.specs.declared.table_error.TableError.TheVariants.{NoMemory};

    ghost from_gives = { λ _ e. e ≡ NoMemory };

    fn from(_error: AllocError) -> TableError {
        TableError::NoMemory
    }
}

impl<T: Drop> From<AllocFailed<T>> for TableError {
    ghost use Rattle.std.specs.Prelude.{◌≡◌};
    ghost use Rattle.text_faults.specs.declared.table_error.TableError.TheVariants.{NoMemory};

    ghost from_gives = { λ _ e. e ≡ NoMemory };

    fn from(_error: AllocFailed<T>) -> TableError {
        TableError::NoMemory
    }
}
