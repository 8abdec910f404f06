//! The commands on analyses, `analyse`, `check`, `convert`, `slice`, `claims` and `stress`: from their requests to what a run comes to.
//!
//! Each is a chain of steps (specs/Steps): inputs are read and examined one after another, each whole before the next is opened, and then the work
//! is done over the base that the request names (`program_base_tasks`). A refusal of a step is that of the command, and nothing more is read.
//! `analyse_request`, `check_request`, `convert_request`, `slice_request` and `claims_request` give what these chains may give, over any inputs.
//!
//! The request of `analyse` says whether the analysis is left open at what has no decoding or too many targets (specs/Problems, `task_in`);
//! those of `check`, `slice` and `claims` say whether their table may be left open there (`check_task_in` and the like).
//!
//! The chain of `stress` (specs/StressSteps) is that of the others over what is made and not read (`program_stress_code`): the specification of
//! PowerPC, the code and an entry are examined, the code is analysed over the base that the request names, its table is checked, and the
//! code runs from the entry with 0 in place of any. `stress_request` gives what this chain may give: a summary of six lines, or the refusal
//! of the first step that refuses. It opens no input.
//!
//! The laws of src/laws.rt say that over the bytes that names hold each command has one outcome; over affine relations the table that `analyse` or
//! `convert` writes may have several texts. The verdict of each summary of `stress` is that the table is accepted.
#![tactic(auto)]

mod analyse;
mod check;
mod claims;
mod convert;
mod inputs;
pub mod laws;
mod slice;
mod stress;
mod summary;

pub use analyse::analyse_request;
pub use check::check_request;
pub use claims::claims_request;
pub use convert::convert_request;
pub use slice::slice_request;
pub use stress::stress_request;
