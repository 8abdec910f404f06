//! Claims of states and slices of code: definitions and laws; nothing runs.
//!
//! # Claims of the states at an address
//!
//! A *claim* (specs/Claims) says of each state that a run has at an address that the number of a cell lies in a range, that it is not a certain
//! number, or that a number and multiples of cells add to 0, modulo 2^32. Or it says that no run comes there. What elements *tell* of claims is a
//! record (specs/Answers): whether they tell of single cells and of sums, over which cells, and three tests. The answer of a table is yes where
//! the element that it lists tells the claim, and where it lists none: no run comes there. So `never` is yes there alone.
//!
//! - Elements of cells (specs/Cells) tell of single cells. The word of a cell lies in LO..HI where neither LO <= word nor word <= HI may be false,
//!   and it is not N where it may not be N.
//! - Elements of affine relations (specs/Affine) tell of sums of tracked cells. The sum is a form: a number, and a multiple of each tracked cell,
//!   cells that are named twice being added. It is told where the form is 0 over each generating row.
//! - Pairs (specs/Pairs) tell of what either part does; of sums the first part that tells of them.
//!
//! | law | says |
//! |---|---|
//! | `cells_tell_truly`, `relations_tell_truly`, `pairs_tell_truly` | what an element that fits tells is true of each state of which it holds |
//! | `forms_are_sums` | the form of a sum of tracked cells is the sum |
//! | `sums_are_exact` | where rows describe some numbers of 32 bits, a form is 0 over each row exactly where it is 0 over all numbers that they describe |
//! | `sums_are_of_members` | what is told of a sum does not depend on which rows generate a submodule |
//! | `claims_hold` | a yes of a table that is true of every run is true of every state at the claim's address, in every run from a state that the entry describes, under every bound on turns |
//!
//! Why exact: let the row (a, x) be one of the rows, and v some numbers that they describe. Then v, taken 1 - a times, and x describe some
//! numbers too: their first number is 1. The form is 0 over both, so over the row.
//!
//! # Slices
//!
//! From which addresses the cells come that an instruction reads, whether at once or by way of other instructions.
//!
//! *On a table* (specs/Slices). A use of a map is *asked for* where it is of the map, and its key is the one that is asked for or may be any. An
//! address is in the slice where a list of addresses leads to it: the first is a stamp of a use that is asked for, and each next one is a stamp of a
//! use at the one before it. So a slice is what the uses of a table reach (Weiser, "Program Slicing", IEEE TSE 10(4), 1984). It has the entry where
//! some use on the way has its stamp. Take this table:
//!
//! | address | uses |
//! |---|---|
//! | 4096 | `R[0]` from the entry |
//! | 4100 | `R[1]` from 4096 |
//! | 4104 | `R[1]` from 4096, `R[2]` from 4100 |
//!
//! The slice for the reads of `R[2]` at 4104 has the addresses 4096 and 4100, and the entry; that for the reads of `R[1]` has 4096 and the
//! entry. There is none but the entry for the reads of `R[0]` at 4096.
//!
//! *On runs* (specs/Chains). Of a cell that a step reads, the meaning tells the address of the instruction that put it. Where a run meets the
//! address twice, that does not tell which step it was. So a run is told once more: step number n is evaluated with n for its address, so that it
//! stamps the cells that it puts with n. The stamp of a read is then the number of the step that last put the cell. A *chain* of a read is a list
//! of steps: the first is the one that last put the cell that is read, and each next one last put a cell that the one before it reads.
//!
//! | law | says |
//! |---|---|
//! | `slices_are_one`, `slices_are_there` | there is one slice from uses, where finitely many addresses have any |
//! | `slices_are_of_uses` | it does not depend on how elements are seen |
//! | `numbered_runs_are_runs` | the run with numbers for stamps comes as far as the run of the meaning. With the address of each step in place of its number, its states, steps and reads are those of the meaning. What a step reads was put by it or by a step before it, or is of the entry |
//! | `slices_hold_chains` | Let a table be true of every run, and its base tell stamps. Then the slice at an address holds the address of each step of each chain of each read of the map there, at the key or at any, in every run from a state that the entry describes, under every bound on turns. Where the last step of a chain, or the read itself, is of a cell that no step put, the slice has the entry |
//!
//! The third rests on one lemma: evaluation commutes with a change of stamps (proofs/Restamped). Where f takes the stamp of n to that of a, what
//! the instruction at a makes of values whose stamps f changed is what f makes of what the instruction at n makes of the values.
//!
//! What is not followed: control dependence, and reads of word fields, of which no stamps are told.
#![tactic(auto)]

pub mod laws;
