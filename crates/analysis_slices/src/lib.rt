//! Slices of tables: from which addresses the cells come that an instruction reads.
//!
//! `slice` answers exactly the slice that `analysis_query_laws` defines (`IsSlice`, specs/Slices). It is a search. Addresses that were
//! found are *pending* until the uses at them were *followed*. At first the stamps of the uses that are asked for are pending. Then the
//! least pending address is taken, and the stamps of all uses at it that were not followed yet are added, until nothing is pending. Each
//! use of the table is looked at at most twice.
//!
//! In the table whose block of 4096 uses `R[0]` from the entry, that of 4100 `R[1]` from 4096, and that of 4104 `R[2]` from 4100, the slice
//! at 4104 for `R[2]` goes: pending 4100; followed 4100, pending 4096; followed 4096 and 4100, and the entry. So it is 4096, 4100, and the entry.
//!
//! *What it says of runs* (`laws`, specs/Tables). Where the table is true of every run and its base tells stamps, as `check` shows of a table that
//! it accepts, the slice holds the address of each step of each chain of each read that it is of.
//!
//! *Why it ends.* Each turn follows one more address, and there are at most 2^32 of them (proofs/Loop).
//!
//! *Why it is exact* (proofs/Search). What was found is reached, and the stamps of what is asked for, and those at each address that was followed,
//! were found. So where nothing is pending, what was followed is what is reached.
#![tactic(auto)]

mod answer;
pub mod laws;
mod reach;
mod slice_search;

pub use answer::Slice;
pub use reach::slice;
