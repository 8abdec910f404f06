//! What code means over any base: the reinterpretation by nodes. Definitions and laws; nothing runs.
//!
//! A frame is a list of abstract values. Nodes run one after another, and each gives the value of the next slot (specs/Meaning); where one has no
//! value, what comes later is not evaluated. A condition that may be true and false runs both branches from the same frame, and joins
//! their values; so does a choice with the arms that may be picked. What a step means is what `abstract_semantics` says of core terms.
//!
//! *Laws* (specs/Laws), each for every base, whatever calls give:
//! - `code_means_the_same`: the code of a function gives to a turn what its core term gives, on as many arguments as it has parameters, where
//!   variables are in scope;
//! - `groups_mean_the_same`: in an accepted specification, turns of a group by its code are turns by its core terms;
//! - `calls_mean_the_same`: what calls give by code is what the reinterpretation of the core terms gives them, and the other way round.
#![tactic(auto)]

pub mod laws;
