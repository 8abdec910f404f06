//! Affine forms as a base (linear relations among registers: Karr, Acta Informatica 6, 1976; modulo 2^32: Markus
//! Müller-Olm and Helmut Seidl, "Analysis of modular arithmetic", ACM Transactions on Programming Languages and Systems
//! 29(5), 2007).
//!
//! A word is any, a constant, or, at 32 bits alone, a form: a constant plus multiples of the numbers that the tracked
//! cells had before the instruction, modulo 2^32. Where the cells are r and s, the list 5, 1, 2 is the form 5 + r + 2s;
//! in the valuation 3, 4 its number is 16. A form whose multiples are all 0 is written as its constant.
//!
//! *Operations.* The sum of 5 + r + 2s and 1 - r - 2s is the constant 6, and their difference 4 + 2r + 4s. Negations
//! and complements are forms too (Not x is -1 - x), and so are the product with a constant, on either side, and the
//! shift to the left by a constant: 3 times 5 + r is 15 + 3r, and 5 + r to the left by 4 is 80 + 16r. Two constants
//! give the exact result. Everything else is any: a product of two forms, a cast of a form, even from 32 to 32 bits,
//! and what any enters, even times 0.
//!
//! *Comparisons.* 5 + r and 7 + r have the same multiples, so they differ by a constant: they are not equal, whatever r
//! is. Which one is less depends on r. Of a form with itself each comparison is known.
//!
//! *Joins* keep equal words, and all others join to any: relations are kept by the elements of the analysis (submodules
//! of `support_modular_rows`), which say in which valuations an instruction is reached.
//!
//! The laws of `laws` say that results on constants and forms are exact in every valuation, and tie the number of a form to
//! its value over a vector of `support_modular_rows`. Elements need it over all members, which may begin with another number
//! than 1: over each vector the value of a sum is the sum of the values.
//!
//! *Files.* Operations by their kinds are in operations.rt, each on forms in a file of its own, with specs/Operations;
//! sums and multiples of lists of numbers in forms.rt, with specs/Forms. specs/Instance proves the laws of `Base`.
#![tactic(auto)]

mod add;
mod base;
mod casts;
mod compare;
mod forms;
mod join;
pub mod laws;
mod members;
mod mul;
mod neg;
mod not;
mod operations;
mod shl;
mod sub;
mod tracked;
mod word;

pub use base::Affine;
pub use tracked::Tracked;
pub use word::Word;
