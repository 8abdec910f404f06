//! Maps over two bases put side by side, and maps over a pair of bases taken apart.
//!
//! `zip_map` makes a map over `Paired<A, B>` of a map over each base, and `first_map` and `second_map` give the parts of such a
//! map. With sets on the left and intervals on the right, `{ 4: {7}, rest {0} }` and `{ 5: 1..2, rest 0..9 }` give
//! `{ 4: ({7}, 0..9), 5: ({0}, 1..2), rest ({0}, 0..9) }`, of which the first part is `{ 4: {7}, 5: {0}, rest {0} }`. Past the
//! number of cells that a map may list, the cell of the greatest key goes into the rest.
//!
//! What each call gives is defined in specs/Calls of `domain_product_laws`, and its laws are those of `domain_product_laws`: what both maps
//! describe the zipped one describes, and what a map over pairs describes both parts describe.
//!
//! *Parts.* `ProductPart` is what is taken of each word and of each note, as a copy or where it stands, and `First` and `Second` are
//! those of a pair; `mapped_map` takes it of each cell.
//!
//! *Copies.* All calls borrow. Each word and each note is copied once into the result, but for the rest of a map, which is
//! copied once more for each key that its side lacks.
#![tactic(auto)]

mod cells;
mod keyed;
mod keys;
mod mapped_maps;
mod part;
mod projections;
mod zipped_maps;

pub use mapped_maps::mapped_map;
pub use part::{First, ProductPart, Second};
pub use projections::{first_map, second_map};
pub use zipped_maps::zip_map;
