//! Why a specification is refused.

use std::alloc::{AllocError, AllocFailed};
use syntax_lexer::Text;
use syntax_parser::tree::Span;

/// The first fault of a specification, with its place.
#[derive(Debug, Drop)]
pub enum SpecError {
    /// T1: nothing has this name.
    Unknown {
        span: Span,
        name: Text,
    },
    /// T2: something before it has this name.
    Twice {
        span: Span,
        name: Text,
    },
    /// T3: a part of another type than the one that is wanted there.
    Mismatch {
        span: Span,
        want: Text,
        got: Text,
    },
    /// T4: a wrong count of arguments.
    Arity {
        span: Span,
        want: u32,
        got: u32,
    },
    /// T5: a width, a literal, a cast or a default out of range.
    BadWidth {
        span: Span,
        shown: Text,
    },
    /// T6: a datatype that contains itself.
    RecursiveType {
        span: Span,
        name: Text,
    },
    /// T7: a function that calls one of its own group, itself or one that reaches it by calls, outside tail position.
    BadRecursion {
        span: Span,
        function: Text,
    },
    /// T8: a match that no arm of takes some value.
    NotExhaustive {
        span: Span,
        example: Text,
    },
    /// T9: an arm that is never taken.
    Useless {
        span: Span,
        row: u32,
    },
    /// T10: no type of states.
    BadState {
        span: Span,
    },
    /// T11: no function of instructions.
    BadInterp {
        span: Span,
    },
    /// T12: a decode row that is wrong.
    BadPattern {
        span: Span,
    },
    /// T13: two decode rows that a word may meet.
    Overlap {
        span: Span,
        first: Text,
        second: Text,
    },
    /// T14: more than the limit.
    TooMany {
        span: Span,
        what: Text,
    },
    /// Memory ran out.
    NoMemory,
}

impl From<AllocError> for SpecError {
    ghost use Rattle.std.specs.Prelude.{◌≡◌};
    ghost use Rattle.spec_ir.specs.declared.spec_error.SpecError.TheVariants.{NoMemory};

    ghost from_gives = { λ _ e. e ≡ NoMemory };

    fn from(_error: AllocError) -> SpecError {
        SpecError::NoMemory
    }
}

impl<T: Drop> From<AllocFailed<T>> for SpecError {
    ghost use Rattle.std.specs.Prelude.{◌≡◌};
    ghost use Rattle.spec_ir.specs.declared.spec_error.SpecError.TheVariants.{NoMemory};

    ghost from_gives = { λ _ e. e ≡ NoMemory };

    fn from(_error: AllocFailed<T>) -> SpecError {
        SpecError::NoMemory
    }
}
