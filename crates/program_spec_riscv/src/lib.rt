//! RV32I, the base integer instructions of RISC-V, as a specification.
//!
//! `TEXT` is written in the language of specifications, instruction by instruction in the order of the unprivileged manual.
//! It is proved that `text` gives it. What the instructions do is not proved but shown by `cases`: for each instruction,
//! states before and after one step, worked by `examples/cases/rv_model.py`.
#![tactic(auto)]

pub mod cases;
mod specification;
#[cfg(test)]
mod tests;

pub use specification::{TEXT, text};

/// One step of an instruction.
#[derive(Clone, Copy, Debug)]
pub struct Case {
    /// The code word.
    pub word: u32,
    /// The state before, as an entry: the counter, and the cells that are not their map's default.
    pub before: &'static str,
    /// The state after one step, as a state is printed.
    pub after: &'static str,
}
