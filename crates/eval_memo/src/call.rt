//! Calls, by which the memo is looked up.

ghost use Rattle.std.specs.Prelude.{◌≡◌};

use indexmap::Equivalent;
use std::hash::Hash;

/// A call of a function.
#[derive(Clone, Copy, PartialEq, Eq, Hash, Drop)]
pub struct Call<A> {
    /// The function's number.
    pub function: u32,
    /// The arguments, which it owns or lends.
    pub args: A,
}

/// A call that lends its arguments finds the one that owns the same, so that none is copied to be looked up.
impl<T: Eq + Hash> Equivalent<Call<Vec<T>>> for Call<&[T]> {
    ghost use Rattle.eval_memo.specs.Calls.{is_call, is_call_alike, is_call_fed};

    ghost equivalent = { λ q. is_call T.eq q.function q.args.now };

    ghost respects_hash = { λ q k. is_call_fed T.eq T.hash_input T.respects_eq q.function q.args.now k };

    ghost respects_eq = { λ q x y. is_call_alike T.eq T.Eq.laws q.function q.args.now x y };

    fn equivalent(&self, key: &Call<Vec<T>>) -> bool {
        self.function == key.function && self.args == key.args.as_slice()
    }
}
