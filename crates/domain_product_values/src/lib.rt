//! Values over two bases put side by side, and values over a pair of bases taken apart.
//!
//! `zip` makes a value over `Paired<A, B>` of a value over each base, and `first` and `second` give the parts of such a
//! value. Flags and constructors are those that both have, words go side by side, and maps as `domain_product_maps` has it. `zip_values`,
//! `first_parts` and `second_parts` do so with the values of lists.
//!
//! What each call gives is defined in specs/Calls of `domain_product_laws`, and its laws are those of `domain_product_laws`: what both values
//! describe the zipped one describes, and what a value over pairs describes both parts describe.
//!
//! *Widths.* Two values can be put side by side where their widths are the same wherever both have a word or a map
//! (`Meet`), as those of two values of one type are.
//!
//! *Copies.* All calls borrow. Each word and each note is copied once into the result, but for the rest of a map, which is
//! copied once more for each key that its side lacks.
#![tactic(auto)]

mod lists;
mod mapped_values;
mod projections;
mod zipped_values;

pub use projections::{first, first_parts, second, second_parts};
pub use zipped_values::{zip, zip_values};
