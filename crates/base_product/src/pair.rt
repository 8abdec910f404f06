//! Two values side by side.

use std::marker::Model;

/// Two words, or two notes, side by side: contracts see the pair of both.
#[derive(PartialEq, Eq, Hash, Debug)]
pub struct Pair<X, Y>(pub X, pub Y);

impl<X, Y> Model for Pair<X, Y> {
    ghost Value = { X × Y };

    ghost view = { λ a. (a.0, a.1) };

    ghost inverse = { λ p. record { 0 = p.0; 1 = p.1 } };
}

/// Written out, so that what lets a pair go stands once for each two types, and not once more in each crate where one is
/// let go.
impl<X: Drop, Y: Drop> Drop for Pair<X, Y> {
    fn drop(self) {
        let Pair(_first, _second) = self;
    }
}
