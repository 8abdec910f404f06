//! What a line of claims may be.

ghost use Rattle.std.specs.Prelude.{◌≡◌};
ghost use Rattle.text_claims.specs.Reading.{error_at};

use analysis_claims::Claim;
use semantics_values::KeyAt;
use text_faults::ClaimError;

/// A cell of the states, but the counter: its field, its key, and how many bits its numbers have.
#[derive(Clone, Copy)]
pub(crate) struct Known {
    pub field: u32,
    pub key: KeyAt,
    pub width: u32,
}

/// What a line says by itself: nothing, by its form; no claim, by its form or since a number is too big for its cell; a claim of a cell
/// that is not there; or this claim.
#[derive(Drop)]
pub(crate) enum Meant {
    Nothing,
    Bad,
    Unknown,
    Says(Claim),
}

/// What is wrong with a claim: its address, or a cell that is not tracked; or that elements tell of none such.
#[derive(Clone, Copy)]
pub(crate) enum ClaimFault {
    Place,
    Part,
}

impl ClaimFault {
    /// The error of a text whose first faulty line is number `n`.
    pub(crate) fn at(self, n: u32) -> ClaimError
        ensures { result ≡ error_at n self }
    {
        match self {
            ClaimFault::Place => ClaimError::UnknownPlace { n },
            ClaimFault::Part => ClaimError::NoPart { n },
        }
    }
}
