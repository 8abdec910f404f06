//! What specifications mean: definitions alone, which contracts of the crates above cite. Nothing runs.
//!
//! - specs/Direct: the direct meaning of typed terms, as one recursion over terms. specs/Outcomes says what an evaluation gives, and
//!   specs/Steps what each form of a term gives on the values of its parts.
//! - specs/Decode: which row of the decode section a word meets, and the instruction that it then is.
//! - specs/Runs: a step of a machine, and the state after n steps, or why there is none.
//! - specs/Entries: which states an entry describes, and the one state of an entry that gives one number for each cell it names.
//!
//! The definitions are total: a term that is not typed comes to *wrong*, which is an outcome of its own. That no term of a checked
//! specification does is a law.
#![tactic(auto)]
