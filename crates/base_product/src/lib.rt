//! Two bases side by side: each operation acts on both parts, and either part may decide a question
//! for both (the reduced product of Cousot and Cousot, "Systematic design of program analysis
//! frameworks", POPL 1979, as far as questions go: the words of the parts are not changed by each other).
//!
//! A flag may be what both parts allow. So where one part knows that `x` is 3 or 5 and the other that it is
//! 4 to 9, `x == 3` can only be false.
#![tactic(auto)]

mod base;
mod beside;
mod members;
mod notes;
mod pair;

pub use base::Paired;
pub use pair::Pair;
