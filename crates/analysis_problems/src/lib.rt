//! What is read is a well-posed problem of analysis. Nothing runs.
//!
//! # What a domain asks of a specification and of an entry
//!
//! The machine of an accepted specification has states of one constructor, whose first field is the counter, and whose others are words and
//! maps of widths, each map with at most 2^32 keys; so a domain can be made for it (`accepted_have_states`). The lines of an entry that is
//! read name cells that are there, and give numbers of their widths, ranges with their ends in order (`read_entries_fit`): `R[5] 2..1` is
//! no line.
//!
//! # What a checked machine has beside being accepted: its states have few fields
//!
//! A constructor that is declared has at most 16 fields, else the first pass finds a fault; one field of the constructor of
//! states is the program counter, so fewer than 16 stand behind it (`states_have_few_fields`). So a 32-bit number tells them apart
//! (`fields_have_numbers`), as the domain of affine relations asks.
//!
//! # Problems
//!
//! *The problem* (specs/Problems) of a specification, an image and an entry is the machine of the specification, the words of the image
//! at their addresses, and the counter and lines of the entry. It is well posed (`read_problems_are_well_posed`) where the
//! specification is accepted, the image has no fault, and the entry was read: then what the laws of transfers ask of a problem
//! holds of it, and they ask no more.
//!
//! Take an image of 8 bytes from 4096 on and of 4 bytes from 4294967292 on, and an entry with the line `pc 1000`, in hex. The
//! problem has the addresses 4096, 4100 and 4294967292, and the counter 4096. Addresses ascend, since segments do and share no
//! byte. They are below 2^32, since no segment passes the end of memory. They are at most 262,144, since an image has at most
//! 1,048,576 bytes and a word has 4.
#![tactic(auto)]

pub mod laws;
