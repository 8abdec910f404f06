//! Laws of entries: what the runs of a machine rely on. Nothing runs.
//!
//! An entry that is read gives the program counter a number of 32 bits, and cells that are there numbers of their widths
//! (`entries_fit`). The one state of such an entry is a state that the entry describes, and so has its type
//! (`one_states_are_described`). The machine of a text without faults has the fields of states that the laws of `state_text` rely on
//! (`machines_have_fields`): their names are names, since the lexer gives no others, and differ, since the first pass finds no fault.
#![tactic(auto)]

pub mod laws;
