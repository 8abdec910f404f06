//! What follows a turn.

ghost use Rattle.std.specs.Prelude.{◌≡◌, IfOk};
ghost use Rattle.support_tail_fixpoint.specs.Activation.{after_next};
ghost use Rattle.support_tail_fixpoint.specs.Meaning.{ArgsFit};
ghost use Rattle.support_tail_fixpoint.specs.Views as view;

use crate::{Policy, Turn};
use std::alloc::{AllocError, Global};

/// What follows a turn.
#[derive(Drop)]
pub enum After<A> {
    /// Another turn on these arguments, with so much left of the policy.
    Another { left: Policy, args: A },
    /// No other turn.
    Ended,
    /// Another turn is asked for, and none is allowed.
    TooDeep,
}

/// What follows a turn on `args` that asks for `next`, where so much is left of the policy.
pub fn after_asking<T: Turn>(
    alloc: Global,
    turn: &mut T,
    left: Policy,
    args: &T::Args,
    next: T::Args,
) -> Result<After<T::Args>, AllocError>
    requires args_fit { ArgsFit (T.meaning turn.old) (T.args_view args.now) }
    requires next_fit { ArgsFit (T.meaning turn.old) (T.args_view next) }
    ensures value { IfOk result (λ r. view.after T.args_view r ≡ after_next (T.meaning turn.old).moves left (T.args_view args.now) (T.args_view next)) }
    ensures kept { T.meaning turn.new ≡ T.meaning turn.old }
{
    match left {
        Policy::Stop { turns } if turns > 1 => {
            let left = Policy::Stop { turns: turns - 1 };
            Ok(After::Another { left, args: next })
        }
        Policy::Stop { .. } => Ok(After::TooDeep),
        Policy::Widen { unroll, delay } if unroll > 0 => {
            let unroll = unroll - 1;
            let left = Policy::Widen { unroll, delay };
            Ok(After::Another { left, args: next })
        }
        Policy::Widen { .. } if turn.absorbs(args, &next) => Ok(After::Ended),
        Policy::Widen { unroll, delay } if delay > 0 => {
            let delay = delay - 1;
            let left = Policy::Widen { unroll, delay };
            let args = turn.join_args(alloc, args, &next)?;
            Ok(After::Another { left, args })
        }
        Policy::Widen { .. } => {
            let args = turn.widen_args(alloc, args, &next)?;
            Ok(After::Another { left, args })
        }
    }
}
