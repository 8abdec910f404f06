//! Analysis to a fixed point: one element for each code address, and a set of pending addresses.
//!
//! What is computed is the worklist state of `fixpoint_theory` specs/WorklistState, whose head explains it: the least pending address is
//! transferred until there is none. What the last transfer of an address told of its element, the targets and the uses, is kept for its block. `analyse`
//! works over any `Analyser` that is ready (`IsReady`) and sound for its machine (`Described`).
//!
//! *What stands.* A map has the block of each reached address, a second one the number of its element's changes, counted up to the joins of the
//! analysis, and a set has the pending addresses. Seen together they are a worklist state (`worklist_state_in`, specs/Views). It is like the
//! worklist state of the trace so far: elements are the same, changes agree up to the joins, the same addresses are pending (specs/Likeness). The
//! block of an address that is not pending lists what the transfer of its element told (specs/Settled); so once nothing is pending, the blocks are
//! the table. Each function's contract says one step of the definition, from the worklist state before it to the worklist state after it; that such steps
//! keep likeness is a lemma for each step.
//!
//! *Why it ends.* A legal trace has at most N(H + J + 1) addresses, and while an address is pending there is room for
//! one more (`fixpoint_theory`, `legal_traces_are_short`). So the loop's measure is that number less the length of the
//! trace, and no contract speaks of ranks.
//!
//! *What is proved.* Where `analyse` answers a table, its trace is legal and complete, the table is the one of the
//! trace's worklist state, and it is closed. So it is sound: the element at each address describes every state that a run has
//! there, each step goes to an address that its block lists, and the block's uses cover what the step reads. Its
//! addresses and stamps are the image's. A refusal comes exactly where the least pending address of the trace's
//! worklist state has no decoding, or too many targets. The steps are as many as transfers, as many as the trace has addresses, at most N(H + J + 1), also
//! where memory runs out.
#![tactic(auto)]

mod analysis;
mod arrive;
mod report;
mod run;
mod step;
mod told;
mod worklist;
mod worklist_step;

pub use analysis::analyse;
pub use report::{AnalyseError, Report};
pub use worklist::put_block;
