//! The 32-bit integer instructions of PowerPC, as a specification.
//!
//! `TEXT` is written in the language of specifications, instruction by instruction in the order of User Instruction Set
//! Architecture, Book I. It is proved that `text` gives it. What the instructions do is not proved but shown by `cases`: for
//! each mnemonic, with each value of OE and Rc, states before and after one step, worked by `examples/cases/ppc_model.py`.
#![tactic(auto)]

pub mod cases;
mod specification;
#[cfg(test)]
mod tests;

pub use specification::{TEXT, text};

/// One step of an instruction.
#[derive(Clone, Copy, Debug)]
pub struct Case {
    /// The code word.
    pub word: u32,
    /// The state before, as an entry: the counter, and the cells that are not their map's default.
    pub before: &'static str,
    /// The state after one step, as a state is printed.
    pub after: &'static str,
}
