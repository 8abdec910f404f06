//! At which numbers of which cells an element may be cut before an instruction: what decides where it goes on.
//!
//! The next counter of a branch hangs on comparisons. Where one side is a cell of the state, and the other a number that the code word
//! gives, the cell is cut there: then each case of an element goes one way. `Jz(a, t)` of a machine, which goes to `t` where `r[a] == 0:32`, cuts the
//! cell `r[a]` at 1, into what is 0 and what is greater (a cut at 0 would cut off no number).
//!
//! *How it is found* (specs/Comparisons). The term of the function of instructions is read with the decoded instruction at hand, without evaluating
//! it: a variable may be a field of the instruction, whose number is known, or a field of the state. A map of the state at a key whose number
//! is known is a cell, and so is a cell plus or minus a known number (specs/Symbols). Conditions between known numbers are decided, so that
//! `if i == 0:5 then 0:32 else x[i]` is a number or a cell. Only the first part of a constructor is looked at, which is the counter of a
//! state, and no call is followed. All comparisons of cells with numbers are listed, in the order of evaluation: who splits an element takes the first that
//! narrows it.
//!
//! *What is proved.* The code gives what its definition does, and the cuts are the right ones (`laws::cuts_decide`): of a comparison of 32 bits, numbers of the cell between which no
//! cut lies make it alike.
//!
//! Nothing rests on the choice: whatever is cut, no state is lost (`fixpoint_cases`). It is a function of the instruction alone (specs/Choice), so that
//! elements that are the same are cut alike.
#![tactic(auto)]

mod choice;
mod comparison;
mod cuts;
pub mod laws;
mod matches;
mod symbol;

pub use choice::{CellCuts, choices_of};
