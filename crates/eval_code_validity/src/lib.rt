//! Valid code reads no slot before it is written. Definitions and a law; nothing runs.
//!
//! Validity (`eval_code` specs/Valid) is a property of slots' numbers. The meaning of code with any *reading* of slots in the place of the
//! right one (specs/Readings) ties it to what code means: a reading that is right on the slots of a frame may give anything for a slot that
//! is not there yet.
//!
//! *Laws* (specs/Laws), for every base, whatever calls give:
//! - `valid_code_reads_what_is_written`: by each such reading, valid code gives to a turn what it means, on as many arguments as the function
//!   has parameters. Of code that is not valid it says nothing;
//! - `valid_code_needs_no_default`: so it does where each slot that is not there reads as one and the same value, whichever it is.
#![tactic(auto)]

pub mod laws;
