//! Calls of functions: the groups of functions that call each other, and the fault of a call that
//! may not stand where it does.
//!
//! # Groups and tails
//!
//! Two functions are of one group where each is the other, or each reaches the other by calls. A
//! function may call one of its own group in tail position alone: as its body, as a branch of an
//! `if`, as the body of a `let` or as the arm of a match that itself stands there. So a call within
//! a group goes on where its caller was, and nothing of the caller is left to be done. In
//!
//! | function | body | group | loops |
//! |---|---|---|---|
//! | 0 `even` | `if n == 0:32 then true else odd(n - 1:32)` | 0 | yes |
//! | 1 `odd` | `if n == 0:32 then false else even(n - 1:32)` | 0 | yes |
//! | 2 `both` | `even(n) && odd(n)` | 2 | no |
//!
//! the calls of `odd` and `even` stand in tail position. Those of `both` are of another group and
//! may stand anywhere. Calls are those of typed terms: `a && b` is `if a then b else false` there,
//! so `odd(n)` stands in tail position in `both`, and `!odd(n)` is a condition, which does not.
//!
//! # What is proved
//!
//! `specs/Calls.antt` has the calls of a term, in the order in which they are made, with whether each
//! stands in tail position; `specs/Groups.antt` the groups, by paths of calls; `specs/Recursion.antt`
//! the fault. `groups` answers the groups exactly where no function calls one of its own group
//! outside tail position, with the least number of each function's group and whether a function of
//! it calls one of it; else the fault of the first function that does. By the laws there is one
//! fault at most, and none where all is well; calls of other groups go down by a rank, which is that
//! of a whole group; and where no fault stands, calls within a group stand in tail position.
//!
//! # Time
//!
//! A table says which function reaches which, and is made once: in time as functions times calls.
//! Each call then is looked up in it.
#![tactic(auto)]

mod call;
mod group;
pub mod laws;
mod recursion;

pub use call::Call;
pub use group::Group;
pub use recursion::groups;
