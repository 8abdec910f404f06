//! Cases of the instructions, an array for each mnemonic.

pub mod immediates;
pub mod jumps;
pub mod memory;
mod refused;
pub mod registers;

pub use refused::REFUSED;
