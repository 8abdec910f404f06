//! Where an evaluation takes place, and the memo of calls that were evaluated.
//!
//! Nothing here evaluates code; the crate `evaluator` does.
//!
//! *The setting* is what does not change while a call is evaluated. `Known` is what contracts speak of beside it, and no code holds: `calls` is
//! what calls give, a right reinterpretation (`AreRight` of the crate `abstract_semantics`).
//!
//! *The memo.* Each call that is evaluated is kept with its value and its own reads. A call that is met again has both from
//! there: of a function that calls another twice on the same values, the second call is a look-up, and ticks no step. Each entry says what
//! `calls` does, no two are of one call, and as many were added as steps were ticked (`Stands`). What `record_call` is given is kept where the
//! call is new (`Keeps`), and `recall_call` answers nothing only of a call that is new (`IsNew`). A call is found by a hash of
//! its function and its arguments.
#![tactic(auto)]

mod call;
mod error;
mod memo;
mod setting;
mod steps;

pub use error::EvalError;
pub use memo::{Memo, memo_len, memo_new};
pub use setting::{Counted, Known, Setting};
pub use steps::{append, are_arguments, body_of, copy_all, group_of, recall_call, record_call};
