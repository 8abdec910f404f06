//! The driver of an activation.

ghost use Rattle.std.specs.Prelude.{◌≡◌, ◌↔◌, IfOk, IfSome, IsTrue, option_map};
ghost use Rattle.support_tail_fixpoint.specs.Activation.{Answers, Fits, HasTurn, ResultFits, start};
ghost use Rattle.support_tail_fixpoint.specs.Meaning.{ArgsFit, OutFits};
ghost use Rattle.support_tail_fixpoint.specs.Measure.{CanEnd, Falls};
ghost use Rattle.support_tail_fixpoint.specs.Views as view;
ghost use Rattle.support_tail_fixpoint.specs.Views.{activation as plain};
ghost use Rattle.support_tail_fixpoint.specs.declared.driver_request.DriverRequest.TheVariants.{Turn};

use crate::after::{After, after_asking};
use crate::leaves::join_of_leaves;
use crate::{DriverRequest, Policy, Turn};
use std::alloc::{AllocError, Global};
use std::marker::Model;

/// An activation of a function that calls itself: it tells on which arguments the next turn is to
/// be evaluated, and is given what the turn gave.
#[derive(Drop)]
pub struct Driver<T: Turn> {
    args: T::Args,
    /// The join of the leaves of the turns before the present one.
    leaves: Option<T::Out>,
    /// What is left of the policy.
    left: Policy,
    /// Whether it is new, or its last answer was `Turn`.
    running: bool,
}

impl<T: Turn> Model for Driver<T> {
    ghost use Rattle.support_tail_fixpoint.specs.Activation.{Activation};

    ghost Value = { Activation T.Args T.Out };

    ghost view = { λ d. record { running = d.running; left = d.left; args = d.args; leaves = d.leaves } };
}

impl<T: Turn> Driver<T> {
    /// The driver of an activation on these arguments, before its first turn.
    pub fn new(args: T::Args, policy: Policy) -> Driver<T>
        requires { HasTurn policy }
        ensures { result ≡ start args policy }
    {
        Driver {
            args,
            leaves: None,
            left: policy,
            running: true,
        }
    }

    /// The arguments on which the next turn is to be evaluated.
    pub fn args(&self) -> &T::Args
        requires { IsTrue self.now.running }
        ensures { result.now ≡ self.now.args }
    {
        prove!(self.running);
        &self.args
    }

    /// Takes the joined leaves and the joined next arguments that the present turn gave, where it
    /// has some, and answers what is to be done. After an error the state of the driver and of
    /// `turn` is open.
    pub fn give(
        &mut self,
        alloc: Global,
        turn: &mut T,
        out: Option<T::Out>,
        next: Option<T::Args>,
    ) -> Result<DriverRequest<T::Out>, AllocError>
        requires running { IsTrue self.old.running }
        requires fits { Fits (T.meaning turn.old) (plain T.args_view T.out_view self.old) }
        requires out_fits { IfSome (option_map T.out_view out) (OutFits (T.meaning turn.old)) }
        requires next_fits { IfSome (option_map T.args_view next) (ArgsFit (T.meaning turn.old)) }

        ensures answer { IfOk result (λ asked. Answers (T.meaning turn.old).moves (plain T.args_view T.out_view self.old) (option_map T.out_view out)
            (option_map T.args_view next) (view.asked T.out_view asked) (plain T.args_view T.out_view self.new)) }
        ensures running { IfOk result (λ asked. IsTrue self.new.running ↔ asked ≡ Turn) }
        ensures fits { IfOk result (λ asked. asked ≡ Turn → Fits (T.meaning turn.old) (plain T.args_view T.out_view self.new)) }
        ensures result_fits { IfOk result (λ asked. ResultFits (T.meaning turn.old) (view.asked T.out_view asked)) }
        // Each further turn lowers a measure, so there are finitely many.
        ensures can_end { IfOk result (λ asked. asked ≡ Turn → CanEnd (T.meaning turn.old) self.old.left → CanEnd (T.meaning turn.old) self.new.left) }
        ensures falls { IfOk result (λ asked. asked ≡ Turn → CanEnd (T.meaning turn.old) self.old.left
            → Falls (T.meaning turn.old).rank (plain T.args_view T.out_view self.old) (plain T.args_view T.out_view self.new)) }
        ensures kept { T.meaning turn.new ≡ T.meaning turn.old }
    {
        prove!(self.running);
        let leaves = join_of_leaves(alloc, turn, self.leaves.take(), out)?;
        let after = match next {
            Some(next) => after_asking(alloc, turn, self.left, &self.args, next)?,
            None => After::Ended,
        };
        match after {
            After::Another { left, args } => {
                self.args = args;
                self.leaves = leaves;
                self.left = left;
                Ok(DriverRequest::Turn)
            }
            After::Ended => {
                self.running = false;
                Ok(DriverRequest::Out(leaves))
            }
            After::TooDeep => {
                self.running = false;
                Ok(DriverRequest::OutOfFuel)
            }
        }
    }
}
