//! Checked specifications: types, typed terms, core terms and decode rows; what terms may name; and
//! what a refusal says.
//!
//! The types of the code stand in src/, and each has plain data beside it in specs/: `Terms` and
//! `CoreTerms` for the two kinds of terms, `Environment` for declarations, `Specification` for the
//! whole. `Views` goes from the one to the other. All later definitions are on the plain data.
//!
//! A check is a function to `Result`. `specs/Answers.antt` says when it agrees with a first fault:
//! its Ok says that there is none, and its Err is that fault or want of memory. The first fault of
//! two parts, one after the other, is `a then b`.
//!
//! What is proved: look-ups by name (`Environment`, `Scope`), how many constructors a datatype has, the texts of types,
//! of examples and of refusals, each against its definition.
#![tactic(auto)]

mod core_term;
mod counts;
mod declared;
mod environment;
mod fault_lines;
mod names;
mod numbers;
mod pattern_texts;
mod row;
mod scope;
mod shapes;
mod spec;
mod spec_error;
mod table;
mod term;
mod texts;
mod ty;

pub use core_term::Core;
pub use counts::case_count;
pub use declared::{Case, Data, Declarations, MapType, Signature};
pub use environment::Environment;
pub use names::{Constructor, Function, field_types, function_named, key_type, value_type};
pub use numbers::number;
pub use pattern_texts::pattern_text;
pub use row::{Arg, Guard, Row, WordPart};
pub use scope::{Scope, Variable};
pub use shapes::shape;
pub use spec::{Fun, Machine, Spec, SpecUse};
pub use spec_error::SpecError;
pub use term::{CastKind, Term};
pub use texts::{literal_text, number_text, same, type_text};
pub use ty::{Ty, same_type};
