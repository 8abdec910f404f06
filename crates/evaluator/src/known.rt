//! What is known where an evaluation begins.

ghost use Rattle.std.specs.Prelude.{ℕ};
ghost use Rattle.support_tail_fixpoint.specs.declared.policy.Policy.{Policy};

use base_trait::Base;
use eval_group_turns::Specified;
use eval_memo::{Counted, Known};
use std::marker::{Brand, PhantomData};

/// Besides, the address of the instruction and the policy of activations.
pub(crate) trait Placed: Counted {
    ghost at: { ℕ };

    ghost policy: { Policy };
}

/// For a call that picks these in its proof.
impl Placed for Brand {
    ghost use Rattle.support_tail_fixpoint.specs.declared.policy.Policy.TheVariants.{Stop};

    ghost at = { 0 };

    ghost policy = { Stop 1 };
}

/// Calls give what their definition says.
pub(crate) struct Defined<K: Placed> {
    of: PhantomData<K>,
}

impl<K: Placed> Specified for Defined<K> {
    ghost spec = { K.spec };
}

impl<K: Placed> Counted for Defined<K> {
    ghost before = { K.before };

    ghost ticked = { K.ticked };
}

impl<B: Base, K: Placed> Known<B> for Defined<K> {
    ghost use Rattle.abstract_semantics.specs.CallAnswers.{answers};

    ghost calls = { λ c. answers B.algebra c B.CAP K.spec K.at K.policy };
}
