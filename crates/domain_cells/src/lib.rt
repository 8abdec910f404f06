//! The domain of cells: its element is an abstract value for each field of a state but the counter.
//!
//! `StateDomain<B>` is made for the states of a specification, over a base that joins and does not look at the valuation. An
//! element is the list of the values of the fields behind the counter. Over intervals and a state of a counter, a word and a
//! map, an entry without lines gives 0..0 and a map of the default alone. At 4096 that opens to the constructor value of
//! 4096..4096, 0..0 and the map.
//!
//! *What is proved.* Each call gives what `domain_laws` defines, for any base, and the domain has all laws of `domain_trait`: the
//! entry's element holds of each state of the entry, an opened element describes each state of which it holds, a closed one
//! holds of each next state that the value describes, joins and widenings hold of what either side does, and widening ends.
#![tactic(auto)]

mod domain;
mod entry;
mod fields;
mod states;
mod values;

pub use domain::StateDomain;
pub use entry::{given_at, given_rest, given_word, is_key};
pub use fields::{fields_of, state_number};
pub use states::{behind_counter, close_state};
pub use values::{copies, join_values, rank_of_values, values_absorb, widen_values};
