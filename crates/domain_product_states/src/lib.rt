//! The domain of pairs of cells: two domains of cells side by side, whose elements keep the words of both in one map.
//!
//! `PairedStates<A, B>` describes what `PairDomain<StateDomain<A>, StateDomain<B>>` describes, and its calls give the same. A
//! transfer of pairs is over paired words, and what it leaves stays as it is: an element is the list of the values of the fields
//! over the pair, `Both::Together`, so that nothing is put side by side or taken apart between two instructions. With sets and
//! intervals, the field `{ 4: ({7}, 0..9), rest ({0}, 0..9) }` is seen as the parts `{ 4: {7}, rest {0} }` and
//! `{ 4: 0..9, rest 0..9 }`. Two parts that were read from a text, and list other keys each, stay `Both::Apart`.
//!
//! *What is proved.* Contracts see an element as its two parts (specs/Views), and each call gives what `pair_meaning` of
//! `domain_product_laws` and `paired` of `fixpoint_theory` define for them: joins, widenings, absorption and ranks of paired words are those of
//! both parts. The domain has all laws of `domain_trait`, for each specification that both parts are for.
#![tactic(auto)]

mod both;
mod domain;
mod opened;
mod parts;
mod pieces;
mod sides;
mod together;

pub use both::{Both, PairedValues};
pub use domain::PairedStates;
pub use parts::taken_apart;
pub use together::of_parts;
