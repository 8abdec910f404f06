//! Terms in both forms, typed and core, built from their parts; and what operators stand for.
//!
//! A checked term is built once in each form. The typed term keeps its matches, and in the core term
//! each match is a decision with its arms in their order. Each function here builds one production in
//! both forms, and is proved to give the plain terms of the definitions in specs/.
#![tactic(auto)]

mod branches;
mod forms;
mod operators;

pub use branches::{Branch, Branches, choose};
pub use forms::{
    Forms, Lists, call, cast, flag, get, if_else, let_in, literal, make, negate, operate, put,
    result_type, unary, variable,
};
pub use operators::{Operator, cast_fits, cast_of, keyword_operator, operator_of};
