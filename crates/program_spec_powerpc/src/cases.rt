//! Cases of the instructions, an array for each mnemonic; `_OE` and `_RC` stand for the suffixes `o` and `.`.

pub mod branches;
pub mod condition;
pub mod extended;
pub mod loads;
pub mod logical;
pub mod products;
mod refused;
pub mod registers;
pub mod shifts;
pub mod stores;
pub mod sums;

pub use refused::REFUSED;
