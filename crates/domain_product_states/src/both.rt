//! What is over two bases.

use abstract_value::AbstractValue;
use base_product::Paired;

/// What is over two bases: together, as one over their pair, or apart, as one over each.
#[derive(Drop)]
pub enum Both<T, X, Y> {
    /// One over the pair.
    Together(T),
    /// One over each base.
    Apart(X, Y),
}

/// Lists of values over two bases.
pub type PairedValues<A, B> = Both<
    Vec<AbstractValue<Paired<A, B>>>,
    Vec<AbstractValue<A>>,
    Vec<AbstractValue<B>>,
>;
