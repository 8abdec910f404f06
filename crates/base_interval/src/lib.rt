//! Unsigned intervals as a base (interval analysis: Cousot and Cousot, ISOP 1976; on words: LLVM's `ConstantRange`).
//!
//! A word of w bits is an interval [lo, hi], with lo at most hi and hi below 2^w. It stands for each number from lo to
//! hi. `any` is [0, 2^w - 1]. Signed words have no form of their own: a signed reading is below 0 where the top
//! bit is set, so an interval is cut in two where that bit changes, and a signed operation is precise on either
//! side alone.
//!
//! *Wrapping.* Sums, differences, negations and truncations give successive whole numbers, modulo 2^w. Where both ends
//! pass 2^w equally often their remainders are the ends of the result: in 8 bits [250, 252] + [10, 20] is
//! [4, 16]. Else the greatest word and 0 are both among the results, and no interval but `any` holds them. `wrapped` is
//! that rule, stated once.
//!
//! *Ends.* An operation that grows or falls in each operand has its extremes at the ends: quotients, right shifts,
//! high halves, sign extensions. For the others an interval around the results is given: [5, 9] & [3, 4] is [0, 4].
//! Two single numbers give the exact result.
//!
//! *Files.* Each operation has a file in src/ and its definition in specs/, with the law that it holds each result: `add_of`
//! and `add_sound` in specs/Add. specs/Operations puts them together, specs/Instance proves the laws of `Base`.
//!
//! The laws of `laws` say what is best: sums, differences, negations, complements and casts give the least interval of
//! the results, and a comparison may have exactly the truth values that it has of some two numbers. Of the other
//! operations that is not said.
#![tactic(auto)]

mod add;
mod and;
mod base;
mod compare;
mod div_s;
mod div_u;
mod equal;
mod join;
pub mod laws;
mod members;
mod mul;
mod mul_hi_s;
mod mul_hi_u;
mod neg;
mod not;
mod ones;
mod operations;
mod or;
mod order;
mod range;
mod rem_s;
mod rem_u;
mod rot_l;
mod sext;
mod shl;
mod shr_s;
mod shr_u;
mod signs;
mod sub;
mod trunc;
mod widen;
mod width;
mod wrapped;
mod xor;

pub use base::Interval;
pub use range::Range;
