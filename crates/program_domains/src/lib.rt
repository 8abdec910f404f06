//! The domains that the program names, and what an analysis in each comes to.
//!
//! Each base stands for a domain (specs/Named): cells of sets, intervals, known bits, strided intervals or definitions; affine relations;
//! or two of these side by side. specs/Domains has each as definitions see it: its words, its elements and the calls on them, for the
//! states of any specification, the texts of both, and what elements tell of claims. A `NamedDomain` of the code can be made for each
//! machine; that each is one of these, `program_base_tasks` shows.
//!
//! *The outcome* of the analysis of a problem in a domain (`ComesTo`, specs/Analyses) is the text of the table of the one legal trace that leaves
//! nothing pending, or the refusal of the first stop. The table is true of the runs of the machine. Of a well-posed problem there is
//! one outcome (src/laws.rt), but that the text of an affine relation may have any rows that generate it.
//!
//! The text of a table may be checked (specs/Checks), written anew (specs/Conversions), sliced (specs/Slices) or asked for claims
//! (specs/Claims). Of one that is accepted, a slice holds every chain of every read that it is of, and each claim that is answered yes is
//! true, in every run of the machine.
//!
//! Where blocks may be left open (specs/OpenAnalyses, OpenChecks, OpenSlices, OpenClaims), that is said of the runs up to and with the
//! first state at an address that is left open. Where there is such an address, the line `until open` stands before a slice and before
//! answers (specs/Until).
#![tactic(auto)]

mod domain;
pub mod laws;

pub use domain::NamedDomain;
