//! The turns of an activation of a group of functions over abstract words.
//!
//! An activation evaluates the bodies of the functions of a group that have arguments, turn by turn: each turn gives the
//! join of its leaves, and for each function the join of the arguments of the calls of it (`support_tail_fixpoint` has the rule
//! by which turns follow one another, `support_tail_fixpoint` that of several functions at once). This crate has group arguments
//! over abstract values as a `Turn` of that driver: for each function, by its number, a list of values or none.
//!
//! With sets as words, group arguments of functions 0 and 2 are `[({1}), none, ({5}, true)]`. Joined with `[({2})]` they are
//! `[({1, 2}), none, ({5}, true)]`; they absorb `[({1})]`, and do not absorb `[none, ({7})]`.
//!
//! *What is proved.* Contracts see a list as that of its plain values, and group arguments as those of `abstract_semantics`
//! (specs/Views). Copies are the same; joins, widenings and absorption are those of its rule, function by function. Of a
//! `Turning`, group arguments *fit* where each list is one of arguments of a function of the group: it has the types of the
//! parameters, words of their widths and ascending keys, and notes that list no stamps but those of the first arguments and
//! that of the instruction (law `arguments_are_told`). Joins and widenings keep what fits, whatever the specification. Ranks
//! are counted along the shapes of the parameters' types, and a missing list counts one more than the greatest rank that
//! it can have. Where the specification is well-formed and the base joins, a widening by what is not absorbed lowers the rank
//! (`widening_lowers`), and none is greater than that of no arguments at all (`ranks_are_bounded`): so an activation ends.
//!
//! The specification itself is a ghost member of the parameter `K: Specified`, since a turn may hold no reference; of the
//! code it owns its context, the number of the group, the address, and the first arguments, whose stamps count.
#![tactic(auto)]

mod groups;
pub mod laws;
mod lists;
mod turning;

pub use groups::{arguments_of, copy_groups, groups_absorb, merge_groups, only};
pub use lists::{are_typed, copy_list};
pub use turning::{Specified, Turning};
