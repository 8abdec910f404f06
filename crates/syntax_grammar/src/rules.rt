//! What the rules of the grammar refuse, and a part that several of them share.

use crate::tree::{Num, Span};
use std::alloc::{AllocError, AllocFailed};

/// Why a rule refuses. The cursor then stands at the token that is refused.
#[derive(Clone, Copy, Debug, PartialEq, Eq)]
pub enum RuleFault {
    Syntax,
    TooDeep,
    NoMemory,
}

impl From<AllocError> for RuleFault {
    ghost use Rattle.std.specs.Prelude.{◌≡◌};
    ghost use Rattle.syntax_grammar.specs.declared.rules.RuleFault.TheVariants.{NoMemory};

    ghost from_gives = { λ _ e. e ≡ NoMemory };

    fn from(_error: AllocError) -> RuleFault {
        RuleFault::NoMemory
    }
}

impl<T: Drop> From<AllocFailed<T>> for RuleFault {
    ghost use Rattle.std.specs.Prelude.{◌≡◌};
    ghost use Rattle.syntax_grammar.specs.declared.rules.RuleFault.TheVariants.{NoMemory};

    ghost from_gives = { λ _ e. e ≡ NoMemory };

    fn from(_error: AllocFailed<T>) -> RuleFault {
        RuleFault::NoMemory
    }
}

/// The literal `v:w`, with its span.
#[derive(Clone, Copy, Debug, PartialEq, Eq)]
pub struct Literal {
    pub v: Num,
    pub w: Num,
    pub span: Span,
}
