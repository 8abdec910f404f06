//! Code of a specification, which evaluators run: nodes that write slots of a frame.
//!
//! A core term is a tree; its code is a list of nodes, one after another. A frame is a list of values. Its first slots are the arguments
//! of a function, and each node writes the next one: a node has no name for what it writes. A variable takes no node, since it *is* a slot,
//! and a `let` is a name for one. Of a function with the arguments x and y, `let z = x + y in if z == 0 then y else z * z` is
//!
//! - slot 2: `x + y`, of slots 0 and 1;
//! - slot 3: the word 0;
//! - slot 4: whether slots 2 and 3 are equal;
//! - a choice on slot 4 between the slot 1, and a node that writes slot 5, `z * z`, of slot 2 twice.
//!
//! *Stretches and tails.* The branches of an `if` and the arms of a choice are held by their node, each as a `Stretch`: nodes, and the
//! slot of their value. A stretch begins with the frame as it is then, with the variables of an arm in the next slots, and lets its own slots go
//! at its end. In tail position they are a `Tail`, which may end in a call within the group. So that a stretch never does is a matter of types.
//!
//! *Code of a specification* (specs/Lowered): `lowered` says by one recursion over a core term which nodes it has, and `IsCodeOf` that
//! the code of each function is that of its core term. `eval_code_lowering` computes it, and `eval_code_meaning` says what code means.
//!
//! *Laws.* `code_is_valid`: each node reads slots that were written before it, on every way to it. `code_is_small`: a function has at most as
//! many nodes as its core term has parts.
#![tactic(auto)]

mod code;
pub mod laws;

pub use code::{End, EvaluatorCode, FunctionCode, Node, Stretch, Tail};
