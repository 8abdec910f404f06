//! What an analysis answers.

use fixpoint_theory::Table;
use std::alloc::{AllocError, AllocFailed};

/// The table, and the addresses at which transfers were made, in their order.
#[derive(Drop)]
pub struct Report<E> {
    pub table: Table<E>,
    pub trace: Vec<u32>,
}

/// Why an analysis stopped, after the transfers of its trace.
#[derive(Drop)]
pub enum AnalyseError<W> {
    /// The code word at an address has no decoding.
    Undecodable { at: u32, word: u32, trace: Vec<u32> },
    /// The transfer at an address has too many targets.
    TooManyTargets { at: u32, shown: W, trace: Vec<u32> },
    NoMemory,
}

impl<W> From<AllocError> for AnalyseError<W> {
    ghost use Rattle.std.specs.Prelude.{◌≡◌};
    ghost use Rattle.fixpoint_worklist.specs.declared.report.AnalyseError.TheVariants.{NoMemory};

    ghost from_gives = { λ _ e. e ≡ NoMemory };

    fn from(_: AllocError) -> Self {
        AnalyseError::NoMemory
    }
}

impl<W, T: Drop> From<AllocFailed<T>> for AnalyseError<W> {
    ghost use Rattle.std.specs.Prelude.{◌≡◌};
    ghost use Rattle.fixpoint_worklist.specs.declared.report.AnalyseError.TheVariants.{NoMemory};

    ghost from_gives = { λ _ e. e ≡ NoMemory };

    fn from(_: AllocFailed<T>) -> Self {
        AnalyseError::NoMemory
    }
}
