//! Small sets and strided intervals as a base.
//!
//! A word is a **set** of 1 to 16 numbers, or a **stretch**: the numbers lo, lo + step, lo + 2 step, .., hi, more than
//! 16 of them. Stretches are the strided intervals of value-set analysis (Balakrishnan and Reps, "Analyzing memory
//! accesses in x86 executables", CC 2004; Reps, Balakrishnan and Lim, "Intermediate-representation recovery from
//! low-level code", PEPM 2006), without those that pass the greatest word; congruences alone are of Granger,
//! "Static analysis of arithmetical congruences", 1989. `any` has no form of its own: it is the stretch 0, 1, ..,
//! 2^w - 1, and at widths up to 4 the set of all numbers.
//!
//! *Operations.* Of two sets number by number; the results are a set again where they are at most 16, and else their
//! hull, the least stretch that holds them. With a stretch an operation works on the hulls: the ends are those of
//! intervals, and the step is one that divides all differences of results. Of sums that is the greatest common divisor
//! of both steps; products, shifts, and rotations that turn no bit round, by one number scale the step; a mask of the
//! lowest bits wraps, and one that clears the k lowest keeps a step that 2^k divides. So the addresses of the elements
//! of an array, base, base + 4, .., stay apart from base + 1: 0, 4, .., 64 plus `{1}` is 1, 5, .., 65.
//!
//! *Wrapping.* `wrapped` (specs/Rows) is one rule for all that is taken modulo 2^w: where both ends pass 2^w equally often, from
//! the one remainder to the other; else every word of the class modulo the greatest power of two in the step. In
//! 8 bits 200, 202, .., 250 plus 50 is 0, 2, .., 254.
//!
//! *Joins.* Two sets give their union where it has at most 16 numbers, and else all give the hull, whose step is the greatest common
//! divisor of both steps and the distance of the low ends. That is the least word that absorbs both, since a set
//! never has as many numbers as a stretch.
//!
//! *Widening* is a union while that fits. Then each end that the new word passes goes to the next of the stops, the
//! context of an analysis, such as the numbers that a program compares with; after the last it goes to 0 or 2^w - 1. The step
//! falls to a proper divisor at most w times, and after each fall the ends may pass the stops once more, so each
//! chain of widenings ends: a rank is at most 131 w + 147.
//!
//! *Files.* specs/Stretch has stretches and their hulls, specs/Rows the operations on them, specs/Sound what each owes.
//! specs/Meaning is the base, specs/Held, Joins and Growth are its laws, and specs/Instance puts them together.
//!
//! The laws of `laws` say what is best: operations and casts of sets give the least word that has all results, a join
//! the least that has both sides, and one word absorbs another exactly where it has its numbers. Of operations on
//! stretches that is not said: Or, Xor, quotients, remainders, shifts of numbers with the sign bit and rotations that turn
//! bits round keep no step.
#![tactic(auto)]

mod base;
mod changes;
mod compare;
mod comparisons;
mod context;
mod divisor;
mod joins;
pub mod laws;
mod numbers;
mod operations;
mod reading;
mod rows;
mod stops;
mod stretch;
mod width;
mod word;

pub use base::Strides;
pub use context::Stops;
pub use stretch::Stretch;
pub use word::StridedSet;
