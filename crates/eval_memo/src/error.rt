//! Why an evaluation has no answer.

use std::alloc::{AllocError, AllocFailed};

/// The activation that began with this function had no turn left; or memory ran out.
#[derive(Clone, Copy, Debug, PartialEq, Eq, Drop)]
pub enum EvalError {
    OutOfFuel { function: u32 },
    NoMemory,
}

impl From<AllocError> for EvalError {
    ghost use Rattle.std.specs.Prelude.{◌≡◌};
    ghost use Rattle.eval_memo.specs.declared.error.EvalError.TheVariants.{NoMemory};

    ghost from_gives = { λ _ e. e ≡ NoMemory };

    fn from(_error: AllocError) -> EvalError {
        EvalError::NoMemory
    }
}

impl<T: Drop> From<AllocFailed<T>> for EvalError {
    ghost use Rattle.std.specs.Prelude.{◌≡◌};
    ghost use Rattle.eval_memo.specs.declared.error.EvalError.TheVariants.{NoMemory};

    ghost from_gives = { λ _ e. e ≡ NoMemory };

    fn from(_error: AllocFailed<T>) -> EvalError {
        EvalError::NoMemory
    }
}
