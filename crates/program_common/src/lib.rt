//! The steps that runs share: from words and inputs to what a run comes to.
//!
//! What a run comes to is one `Outcome`: an answer with its text, or a `Refusal` with what it names. `Outcome::status` and
//! `Outcome::line` say once what status and what line each has. Want of memory is no outcome: a step that finds none halts.
//!
//! The steps of a command stand one after another (specs/Steps, `Then`): each gives something to the next one, or refuses, and then
//! that is what the run comes to. `Gives` says of a function of the code that it gives what a step may give. Here are the
//! first steps, which all commands share: an input is read whole under its cap (`read_input`; specs/Reading says what a name gives),
//! and the source of a specification gives the checked specification, or its first fault (`source_of`, `specification_of`; specs/Sources).
#![tactic(auto)]

mod outcome;
mod rejection;
mod source;
mod spec_fault;
mod status;

pub use outcome::{Answer, Halt, Outcome, Refusal};
pub use rejection::Rejection;
pub use source::{read_input, source_of, specification_of};
pub use spec_fault::SpecFault;
pub use status::Status;
