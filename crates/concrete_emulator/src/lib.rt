//! The emulator: runs of a machine from one state, as `semantics` defines them.
//!
//! `emulate` does steps until a bound, or until one cannot be done, and answers the state before that with the exact number of
//! steps. Between steps the state is a value over single numbers, on which the function of instructions is evaluated; the last one is made
//! a state again. A step hands its state on. Its call copies the state as it begins, and lets the copy go; so behind a step that ran out of
//! turns no state before it is left, and the run is done once more up to it. The word at an address is decoded where a run first comes to
//! it, and its instruction is kept.
//!
//! Maps of the last state may list other cells than those of the meaning's, and have the same cell at each key: such states have one text
//! (specs/Laws).
#![tactic(auto)]

mod abstract_states;
mod emulator;
mod instructions;
pub mod laws;
mod runs;
mod step;
mod values;

pub use runs::{EmulatedRun, emulate};
pub use state_text::Stop;
