//! Why help is not told.

use std::alloc::AllocError;
use support_io::WriteFault;

/// Why a text that is asked for was not written whole.
#[derive(Clone, Copy, Debug, PartialEq, Eq)]
pub enum HelpError {
    /// The sink failed.
    WriteFault,
    /// Memory ran out.
    NoMemory,
}

impl From<WriteFault> for HelpError {
    ghost use Rattle.std.specs.Prelude.{◌≡◌};
    ghost use Rattle.program_help.specs.declared.help_error.HelpError.TheVariants.{WriteFault};

    ghost from_gives = { λ _ e. e ≡ WriteFault };

    fn from(_fault: WriteFault) -> HelpError {
        HelpError::WriteFault
    }
}

impl From<AllocError> for HelpError {
    ghost use Rattle.std.specs.Prelude.{◌≡◌};
    ghost use Rattle.program_help.specs.declared.help_error.HelpError.TheVariants.{NoMemory};

    ghost from_gives = { λ _ e. e ≡ NoMemory };

    fn from(_error: AllocError) -> HelpError {
        HelpError::NoMemory
    }
}
