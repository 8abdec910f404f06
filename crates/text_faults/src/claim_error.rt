//! Why claims are refused.

ghost use Rattle.std.specs.Prelude.{◌≡◌, IfOk};
ghost use Rattle.std.specs.String.{string_bytes};
ghost use Rattle.text_faults.specs.ClaimFaultLines.{fault_line};

use std::alloc::{AllocError, AllocFailed, Global};

/// The first fault of a text of claims. `n` is the number of the first faulty line, from 1.
#[derive(Debug, Drop)]
pub enum ClaimError {
    /// K1: the line has another form than claims have, the ends of its range are not in order, or a number is too big for its cell.
    BadLine { n: u32 },
    /// K2: the address is not that of a code word; the states have no such cell; or a cell of a sum is not tracked.
    UnknownPlace { n: u32 },
    /// K3: elements tell of no such claim.
    NoPart { n: u32 },
    /// Memory ran out.
    NoMemory,
}

impl ClaimError {
    /// The line that says which fault this is, with a line end: `claims N K1` to `claims N K3`. Want of memory has the empty one.
    pub fn fault_line(&self, alloc: Global) -> Result<String, AllocError>
        ensures { IfOk result (λ text. string_bytes text ≡ fault_line self.now) }
    {
        match self {
            ClaimError::BadLine { n } => format!(in alloc; "claims {n} K1\n"),
            ClaimError::UnknownPlace { n } => format!(in alloc; "claims {n} K2\n"),
            ClaimError::NoPart { n } => format!(in alloc; "claims {n} K3\n"),
            ClaimError::NoMemory => Ok(String::new(alloc)),
        }
    }
}

impl From<AllocError> for ClaimError {
    ghost use Rattle.std.specs.Prelude.{◌≡◌};
    ghost use Rattle.text_faults.specs.declared.claim_error.ClaimError.TheVariants.{NoMemory};

    ghost from_gives = { λ _ e. e ≡ NoMemory };

    fn from(_error: AllocError) -> ClaimError {
        ClaimError::NoMemory
    }
}

impl<T: Drop> From<AllocFailed<T>> for ClaimError {
    ghost use Rattle.std.specs.Prelude.{◌≡◌};
    ghost use Rattle.text_faults.specs.declared.claim_error.ClaimError.TheVariants.{NoMemory};

    ghost from_gives = { λ _ e. e ≡ NoMemory };

    fn from(_error: AllocFailed<T>) -> ClaimError {
        ClaimError::NoMemory
    }
}
