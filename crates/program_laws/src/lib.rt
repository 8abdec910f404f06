//! Laws of the program: what it writes it reads, and its commands agree.
//!
//! *`emulate`.* What it prints is an entry of the last state of its run.
//! So a run that stopped can be taken up from its own output. That a text of a state reads back is a law of `state_text`, that runs keep
//! types one of `semantics_laws`, and that machines have such fields one of `state_entry_laws`; here they are put together for each answer of the
//! command (specs/Laws).
//!
//! *Tables.* What the commands on tables owe agrees: the text of a table tells it, what `analyse` prints `check` accepts, and `convert`
//! twice is `convert` once.
//!
//! These are laws (src/laws): nothing runs, but in `run_both`. They are of the outcomes over each base (`program_domains`) and of what a run
//! owes (`program_run`). What follows for two runs in memory, one of `analyse` and one of `check`, `run_both` says.
#![tactic(auto)]

mod in_memory;
pub mod laws;
mod state_round_trip;

pub use in_memory::run_both;
pub use state_round_trip::emulate_reads_back;
