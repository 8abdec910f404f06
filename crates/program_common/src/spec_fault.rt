//! The faults of a specification, each as the error of the layer that finds it.
//!
//! A layer that joins has a variant here, its line, and the `From` that `?` calls; its definitions join in specs/SpecFaults.

ghost use Rattle.std.specs.Prelude.{◌≡◌, IfOk};
ghost use Rattle.std.specs.String.{string_bytes};
ghost use Rattle.program_common.specs.Outcomes.{halt_of_checking, halt_of_lexing, halt_of_parsing};
ghost use Rattle.program_common.specs.SpecFaults.{spec_line};

use crate::outcome::{Halt, Refusal};
use spec_checker::SpecError;
use std::alloc::{AllocError, Global};
use syntax_lexer::LexError;
use syntax_parser::ParseError;

/// The first fault of a specification. Want of memory is none.
#[derive(Debug, Drop)]
pub enum SpecFault {
    /// It has no tokens: L1 to L3.
    Lexing(LexError),
    /// Its tokens have no tree: P1, P2.
    Parsing(ParseError),
    /// Its tree breaks a static rule: T1 to T14.
    Checking(SpecError),
}

impl SpecFault {
    /// The line that says which fault it is, with a line end: `spec AT CODE`.
    pub fn line(&self, alloc: Global) -> Result<String, AllocError>
        ensures { IfOk result (λ text. string_bytes text ≡ spec_line self.now) }
    {
        match self {
            SpecFault::Lexing(error) => error.fault_line(alloc),
            SpecFault::Parsing(error) => error.fault_line(alloc),
            SpecFault::Checking(error) => error.fault_line(alloc),
        }
    }
}

impl From<LexError> for Halt<'_> {
    ghost from_gives = { λ error halt. halt ≡ halt_of_lexing error };

    fn from(error: LexError) -> Self {
        match error {
            LexError::NoMemory => Halt::NoMemory,
            fault => Halt::Refused(Refusal::SpecRefused(SpecFault::Lexing(fault))),
        }
    }
}

impl From<ParseError> for Halt<'_> {
    ghost from_gives = { λ error halt. halt ≡ halt_of_parsing error };

    fn from(error: ParseError) -> Self {
        match error {
            ParseError::NoMemory => Halt::NoMemory,
            fault => Halt::Refused(Refusal::SpecRefused(SpecFault::Parsing(fault))),
        }
    }
}

impl From<SpecError> for Halt<'_> {
    ghost from_gives = { λ error halt. halt ≡ halt_of_checking error };

    fn from(error: SpecError) -> Self {
        match error {
            SpecError::NoMemory => Halt::NoMemory,
            fault => Halt::Refused(Refusal::SpecRefused(SpecFault::Checking(fault))),
        }
    }
}
