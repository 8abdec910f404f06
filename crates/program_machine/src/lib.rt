//! What commands on a machine read, and the two of them that need no more: `emulate`, which runs code, and `list`, which lists it.
//!
//! Each command is a chain of steps (specs/Steps): the specification of a machine, its code, and an entry are read and examined one after
//! another, each whole before the next input is opened. A refusal of a step is that of the command, and nothing more is read.
//! `emulate_request` and `list_request` give what these chains may give, over any inputs. The laws of src/laws.rt say that over the bytes that
//! names hold there is one outcome at most.
//!
//! `analyse`, `check`, `convert`, `slice` and `claims` begin with the same steps (specs/Inputs). What is read for them holds together: the
//! specification is accepted, its states have fields that tables can be of, the code is an image, and the entry fits. The cell that a slice is
//! asked for is sought as soon as the specification is accepted, before any code is read.
#![tactic(auto)]

mod analysis_inputs;
mod caps;
mod cell;
mod code;
mod code_inputs;
mod commands;
mod entry;
pub mod laws;
mod machine;
mod running;
mod slice_inputs;

pub use analysis_inputs::{AnalysisInputs, analysis_inputs_of};
pub use caps::{CLAIMS_CAP, ENTRY_CAP, TABLE_CAP};
pub use code::image_of;
pub use code_inputs::{CodeInputs, code_inputs_of};
pub use commands::{emulate_request, list_request};
pub use machine::machine_of;
pub use slice_inputs::{SliceInputs, slice_inputs_of};
