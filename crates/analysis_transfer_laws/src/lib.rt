//! The transfer of an instruction over any domain, as plain data: what the instruction at an address makes of an element, the
//! analysis of a problem by it, and that this analysis is one of `fixpoint_theory` and sound for the machine. Nothing runs.
//!
//! *A problem* (specs/Problem) is a machine with its specification, the code words by their addresses, an entry, and the limit on
//! targets. *A transfer* (specs/Transfer) fetches the word at an address and decodes it. It opens the element as a state value at the
//! address, evaluates the instruction on it by the reinterpretation under widening, and takes the members of the new counter as
//! targets. It closes the new state value to the element behind the instruction. Take sets of at most two numbers for the words, and
//! the instruction at 4096 that adds 1 to the field x and leaves the program where x is 0. From the element `x: {0, 1}` it gives
//! the targets 4100 and 4294967292, and the element `x: {1, 2}`. Where the counter may be more addresses than the limit, its word
//! is the outcome. Where the evaluation has no value there are no targets and no element, and its uses stand.
//!
//! *Uses* (specs/Uses) are the reads of the evaluation, those of one cell merged, in the order of the state's fields, a use of any
//! key before those of a key: the reads of `R[4]` from the entry, `R[3]` from 4096 and `R[4]` from 4100 are the uses `R[3]` from
//! 4096 and `R[4]` from the entry and 4100.
//!
//! *The analysis* (specs/Analysis) has the elements of the domain, each for states that have the type of states alone, and these
//! transfers. Its *machine* is that of the meaning.
//!
//! # What is proved
//!
//! For each domain that keeps its laws, over a base that joins, and each problem that is well posed (specs/Laws). The domain is given
//! by `PlainDomain`: its elements and its calls as records.
//!
//! | law | says |
//! |---|---|
//! | `reinterpretations_exist`, `transfers_are_one` | there is a reinterpretation at each address, and whichever it is, there is one transfer |
//! | `evaluations_give_states` | what an instruction gives closes: its form and its maps' keys are those of states, and its words fit |
//! | `transfers_keep_the_laws` | transfers keep what the theory of fixed points rests on |
//! | `transfers_are_sound` | where an element holds of a state, the next state's counter is a target, the element behind the instruction holds of it, and the uses cover the reads, under every bound on turns |
//! | `closed_tables_hold`, `closed_tables_are_true` | so a closed table is true of every run from the states of the entry, in the words of `fixpoint_theory` and in those of the meaning |
//! | `uses_are_merged` | merged uses are in order, and cover exactly what the reads cover |
//!
//! Besides what `abstract_semantics` has, evaluations are shown to keep two things more: maps list keys of their types alone
//! (proofs/KeysKept), and logs name stamps of the arguments and of the instruction alone, none where notes tell no stamps
//! (proofs/LoggedCalls).
#![tactic(auto)]

mod domain;
pub mod laws;

pub use domain::PlainDomain;
