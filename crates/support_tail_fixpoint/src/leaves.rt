//! The joins of leaves.

ghost use Rattle.std.specs.Prelude.{◌≡◌, IfOk, IfSome, option_map};
ghost use Rattle.support_tail_fixpoint.specs.Leaves.{join_leaves};
ghost use Rattle.support_tail_fixpoint.specs.Meaning.{OutFits};

use crate::Turn;
use std::alloc::{AllocError, Global};

/// The join of leaves, either of which may be missing.
pub fn join_of_leaves<T: Turn>(
    alloc: Global,
    turn: &mut T,
    before: Option<T::Out>,
    out: Option<T::Out>,
) -> Result<Option<T::Out>, AllocError>
    requires before_fit { IfSome (option_map T.out_view before) (OutFits (T.meaning turn.old)) }
    requires out_fits { IfSome (option_map T.out_view out) (OutFits (T.meaning turn.old)) }
    ensures value { IfOk result (λ r. option_map T.out_view r ≡ join_leaves (T.meaning turn.old).moves (option_map T.out_view before)
        (option_map T.out_view out)) }
    ensures kept { T.meaning turn.new ≡ T.meaning turn.old }
{
    match (before, out) {
        (None, out) => Ok(out),
        (before, None) => Ok(before),
        (Some(x), Some(y)) => Ok(Some(turn.join_out(alloc, &x, &y)?)),
    }
}
