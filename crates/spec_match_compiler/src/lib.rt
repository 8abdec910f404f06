//! Match compilation: rows of patterns become a tree of tests.
//!
//! # Rows and trees
//!
//! A match looks at a value and has rows, each of which asks something of it by a pattern. The
//! first row that the value meets is chosen. Trying one row after another looks at the same places
//! again and again; a decision tree looks at each place at most once on the way to a row. Take a
//! type with the constructors `none` (0) and `some` (1) of one field, a byte, and the rows
//!
//! | row | pattern |
//! |---|---|
//! | 0 | `none` |
//! | 1 | `some 5` |
//! | 2 | `some x` |
//!
//! The tree asks for the constructor first. Its arm for `none` is row 0. In its arm for `some`,
//! where row 0 can't match any more, it asks whether field 0 is 5: if so row 1, else row 2, where
//! `x` names the value at the place "field 0 of constructor 1".
//!
//! # The rule
//!
//! At each node some rows are left, and something is known of the value: of each position nothing
//! but its shape, or its constructor, its truth value, its number, or numbers that it isn't.
//!
//! - Take the first row that is left. Where all its positions are variables or `_`, it is chosen.
//! - Else test its first other position, outermost first, then from left to right: on a datatype
//!   with one arm for each constructor in declared order, on a truth value with true before false,
//!   on a word by equality with that literal, yes before no. The rows that can still match stay, in
//!   their order.
//! - A position whose constructor, truth value or number is already known isn't tested again. A
//!   literal at a position where every other number of its width was tested is met by every value
//!   that is left there, and isn't tested either. A row none of whose positions is left to test is
//!   chosen.
//!
//! A datatype with a single constructor is tested like any other. All positions of one depth come
//! before those of the next: in the row `((true, _), 7)` the number, of depth 1, is tested before
//! the truth value, of depth 2, though it stands to its right.
//!
//! # Failures
//!
//! Where no row is left, a value that fits what is known meets no row. What is known, written as a
//! pattern, is the example: a position of which only the shape is known is `_`, and a word of which
//! some numbers were tested is the least other number. For the rows `some 0` and `some 2` the tree
//! fails at once in the arm of `none`, and the example is `none`; for `none`, `some 0` and `some 2`
//! it is `some 1`. Tests are worked off in order, and the example is that of the first failure.
//!
//! A row is useless where no value is left for it by the rows above. It is so exactly where no leaf
//! of a tree without failures is this row, since each leaf is reached by some value.
//!
//! # What is proved
//!
//! `specs/Rule.antt` is the rule, as a relation between rows and a tree (`IsTree`) or an example
//! (`Fails`). `specs/Meets.antt` and `specs/Picks.antt` say, without the rule, when a value meets a
//! pattern, which row is the first that it meets and which row a tree picks for it. `compile`
//! ensures that its tree is the rule's and picks the first row that matches, with its bindings, for
//! each value of the shape, and by `specs/Compiled.antt` that each refusal comes exactly where it
//! has its cause: an answer with a tree says that every value meets some row and every row is of
//! use, and each of the two refusals contradicts that and the other. The law `rule_is_settled` says that
//! the rule gives one tree at most, or one example, and not both. A body that answers nothing but
//! `NoMemory` isn't refused by any contract: the tests call `compile` with ample memory.
//!
//! Ranks of types stand for "no type contains itself, directly or through others": a type's fields
//! are of types of lower rank. For types that are declared before they are used a rank is their
//! number.
//!
//! # Time and stack
//!
//! Each test goes once through the rows that are left, for each of its answers. A row's literal at
//! the tested place is compared with the tested number alone, and one at another place with each
//! number that was tested there. So n rows of one literal each take time in n²: at each literal the
//! rows that are left are gone through, and the numbers tested before it are copied. One walk over the
//! tree, which marks the row of each leaf, finds the first useless row.
//!
//! Where the test of a word is answered no, the compilation, that walk and the drop of a tree go on
//! in a loop. They call themselves for the answer yes and at the other tests, all of which settle
//! their position for every row. So their recursion is no deeper than there are different positions
//! at which some row has a constructor, a truth value or a literal, and many literals at one position
//! add nothing. The rest calls itself along the nesting of patterns alone, but for the derived
//! `Debug` of a tree, which goes down by calls also where the answer is no.
//!
//! # Sources
//!
//! Luc Maranget, "Compiling pattern matching to good decision trees", ML workshop 2008, has the
//! tree, with specialisation by constructors and default rows, which here are `still` after `put`.
//! Luc Maranget, "Warnings for pattern matching", Journal of Functional Programming 17, 2007, has
//! useless rows and examples of values that aren't matched.
#![tactic(auto)]

mod bindings;
mod can_match;
mod candidate;
mod compilation;
mod decision;
mod example;
mod first_test;
mod knowledge;
pub mod laws;
mod match_error;
mod names;
mod outcomes;
mod pattern;
mod put;
mod shape;
mod step;

pub use compilation::compile;
pub use decision::{Decision, Path};
pub use match_error::MatchError;
pub use pattern::Pattern;
pub use shape::{Shape, Sig};
