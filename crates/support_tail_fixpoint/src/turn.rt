//! What a driver needs of the turns that it drives.

ghost use Rattle.std.specs.Prelude.{◌≡◌, IfOk};
ghost use Rattle.support_tail_fixpoint.specs.Meaning.{ArgsFit, KeepsFit, Meaning, OutFits};

use std::alloc::{AllocError, Global};

/// The arguments on which turns are evaluated and the results that they give, with their joins and
/// widening. No call changes what the calls mean.
pub trait Turn {
    /// What a turn is evaluated on.
    type Args: Drop;

    /// The joined leaves of a turn.
    type Out: Drop;

    /// What arguments and results are as plain data.
    ghost PlainArgs: { Type 0 };

    ghost PlainOut: { Type 0 };

    ghost args_view: { Self.Args → PlainArgs };

    ghost out_view: { Self.Out → PlainOut };

    /// What the calls mean.
    ghost meaning: { Self → Meaning PlainArgs PlainOut };

    /// The join of two results.
    fn join_out(
        &mut self,
        alloc: Global,
        x: &Self::Out,
        y: &Self::Out,
    ) -> Result<Self::Out, AllocError>
        requires x_fits { OutFits (meaning self.old) (out_view x.now) }
        requires y_fits { OutFits (meaning self.old) (out_view y.now) }
        ensures value { IfOk result (λ r. out_view r ≡ (meaning self.old).moves.join_out (out_view x.now) (out_view y.now)) }
        ensures kept { meaning self.new ≡ meaning self.old };

    /// The join of two arguments.
    fn join_args(
        &mut self,
        alloc: Global,
        x: &Self::Args,
        y: &Self::Args,
    ) -> Result<Self::Args, AllocError>
        requires x_fits { ArgsFit (meaning self.old) (args_view x.now) }
        requires y_fits { ArgsFit (meaning self.old) (args_view y.now) }
        ensures value { IfOk result (λ r. args_view r ≡ (meaning self.old).moves.join_args (args_view x.now) (args_view y.now)) }
        ensures kept { meaning self.new ≡ meaning self.old };

    /// The widening of the old arguments by the new.
    fn widen_args(
        &mut self,
        alloc: Global,
        old: &Self::Args,
        new: &Self::Args,
    ) -> Result<Self::Args, AllocError>
        requires old_fits { ArgsFit (meaning self.old) (args_view old.now) }
        requires new_fits { ArgsFit (meaning self.old) (args_view new.now) }
        ensures value { IfOk result (λ r. args_view r ≡ (meaning self.old).moves.widen_args (args_view old.now) (args_view new.now)) }
        ensures kept { meaning self.new ≡ meaning self.old };

    /// Whether the old arguments absorb the new, so that nothing is gained by a turn on both.
    fn absorbs(&self, old: &Self::Args, new: &Self::Args) -> bool
        requires old_fits { ArgsFit (meaning self.now) (args_view old.now) }
        requires new_fits { ArgsFit (meaning self.now) (args_view new.now) }
        ensures { result ≡ (meaning self.now).moves.absorbs (args_view old.now) (args_view new.now) };

    /// What is joined or widened from what fits fits.
    ghost keeps_fit: { (turn : Self) → KeepsFit (meaning turn) };
}
