//! The evaluator over any base: the reinterpretation of a specification, computed by its code.
//!
//! A function of a specification is evaluated on abstract values. Where a condition may be true or false, both branches
//! are, and their values are joined; of a choice, each arm that may be picked. A condition does not narrow its variables: with sets as
//! words, `if x < 2 then 10 else x` gives `{1, 5, 10}` on x in `{1, 5}`. Calls within a group of functions are the turns of a loop, which a
//! driver joins or widens; so recursion follows the nesting of branches, and calls of other groups, alone.
//!
//! *Code* (`eval_code`). What runs is the code of the functions: nodes, each of which writes the next slot of a frame. A node reads its operands in
//! place (`eval_nodes`). Where a condition or a decision does not tell which arm follows, `eval_plans` says which may, and their values are joined.
//! A stretch gives a value; a tail gives to a turn, and may ask for another.
//!
//! *The memo* (`eval_memo`). Each call that is evaluated is kept with its value and its own reads. A call that is met again has both from
//! there: of a function that calls another twice on the same values, the second call is a look-up, and ticks no step.
//!
//! *Nesting.* Branches are evaluated by recursion, each within that of the node around it, a plan within that of the plan around it, and a call
//! within that of its node. At most 1,200 branches and plans are underway, where each call counts as one more; an evaluation that nests them deeper
//! answers `NoMemory`. This keeps below 8 MiB what they take of the stack, and it is why an evaluation ends. Decisions are planned, and their plans
//! evaluated, in loops along the literals of a position. What does the work of one node, and of a turn between its bodies, is kept out of line
//! (`inline(never)`, here and in the crates below), so that its part of the stack does not stand below all that is nested in its caller.
//!
//! *What is said of `eval`.* Calls give what `answers` of `abstract_semantics` says, the reinterpretation as a function: a call answers its
//! value, or none, and its reads come behind those of the log; or it is deep, at the function that this names. Each entry of the memo
//! says what its call gives, also after an error; no two are of one call; and as many were added as steps were ticked. The log and the
//! memo only grow. After a call of a function of the specification the memo holds it; where it held it before, nothing is added.
//!
//! Inside, what calls give is a ghost member of a type parameter (`Known`), so that proofs carry one name for it; `eval` puts the
//! definition in its place (src/known.rt).
#![tactic(auto)]

mod arms;
mod choices;
mod evaluate;
mod evaluation;
mod joins;
mod known;
mod lists;
mod slots;

pub use evaluation::{eval, eval_anew};
