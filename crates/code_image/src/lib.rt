//! Code of a machine: its image in memory, the instructions that its words are, and listings.
//!
//! - `Image` has the words of 1 to 16 segments, in either order of bytes. specs/Image says which word stands at which
//!   address, and specs/Faults what is wrong with segments, in the order in which that is looked for.
//! - `Decoder` finds the instruction of a word, as the decode relation of `semantics` defines it. Its rows are grouped
//!   once, in a tree that asks for bits which all rows of a group fix; specs/Tree says that no row is lost so.
//! - `listing_text` writes a line for each word of an image, as specs/Listing has it.
#![tactic(auto)]

mod bits;
mod decoder;
mod hex;
mod image;
mod image_error;
pub mod laws;
mod listing;
mod order;
mod rows;
mod segment;
mod tree;

pub use decoder::{Decoder, instruction};
pub use image::Image;
pub use image_error::ImageError;
pub use listing::listing_text;
pub use order::Order;
pub use segment::Segment;
