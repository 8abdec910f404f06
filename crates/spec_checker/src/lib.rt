//! From the tree of a specification to the checked specification, or its first fault.
//!
//! Six passes go one after the other, and the first fault is answered: names, types, the machine,
//! terms, calls and decode rows. Each pass is a crate of its own; this one composes them, checks the
//! bodies of functions in their order, and builds the specification.
//!
//! Proved: `check` answers Ok exactly where no pass has a fault, with the types, typed terms, core
//! terms and rows that the definitions give for the tree, and else exactly the first fault, with its
//! place and texts. specs/Check.antt shows the passes in their order and the whole answer on a page.
#![tactic(auto)]

mod bodies;
mod functions;
pub mod laws;
mod passes;

pub use passes::check;
pub use spec_ir::{
    Arg, Case, CastKind, Core, Data, Fun, Guard, Machine, MapType, Row, Spec, SpecError, SpecUse,
    Term, Ty, WordPart,
};
