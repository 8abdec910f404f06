//! The parts of a transfer.

ghost use Rattle.std.specs.Prelude.{◌≡◌, [], Some, None, map, IfOk, IsTrue};
ghost use Rattle.base_trait.specs.Uses.{seen, uses_of};
ghost use Rattle.semantics_values.specs.Views.{val};
ghost use Rattle.semantics.specs.Decode.{decoded};
ghost use Rattle.abstract_value.specs.View.{abs};
ghost use Rattle.abstract_semantics.specs.Calls.{AreArguments};
ghost use Rattle.fixpoint_theory.specs.Code.{is_code};
ghost use Rattle.fixpoint_theory.specs.Outcome.{moves};
ghost use Rattle.domain_laws.specs.Values.{IsStateValue};
ghost use Rattle.domain_laws.specs.States.{state_type};
ghost use Rattle.eval_memo.specs.Given.{Gives};
ghost use Rattle.analysis_transfer_laws.specs.Transfer as plain;
ghost use Rattle.analysis_transfer_laws.specs.Transfer.{counter_of, uses_in};
ghost use Rattle.analysis_transfer.specs.Analysis.{IsReady, calls_of, problem};
ghost use Rattle.fixpoint_theory.specs.Views.{outcome};
ghost use Rattle.analysis_transfer.specs.Outcomes.{IsCountedState, IsOutcome};

use crate::analysis::ImageAnalysis;
use crate::counter::counter_of;
use crate::targets::targets;
use abstract_value::{AbstractValue, put};
use analysis_uses::merged_uses;
use base_trait::{Base, JOINED_TURNS, Log, UNROLLED_TURNS, Use};
use domain_trait::Domain;
use eval_memo::{EvalError, Setting};
use evaluator::eval_anew;
use fixpoint_theory::{Targets, Transfer, Transferred};
use semantics_values::Value;
use std::alloc::{AllocError as NoMemory, Global};
use support_tail_fixpoint::Policy;

impl<'a, D: Domain> ImageAnalysis<'a, D> {
    /// The word at a code address.
    pub fn word_at(&self, at: u32) -> u32
        requires ready { IsReady self.now D.B.algebra (D.is_for self.now.domain.now) }
        requires code { IsTrue (is_code (problem self.now).addresses at) }
        ensures { (problem self.now).word_at at ≡ Some result }
    {
        match self.image.fetch(at) {
            Some(word) => word,
            None => 0,
        }
    }

    /// What the instruction of a word makes of an element.
    pub(crate) fn execute(
        &self,
        alloc: Global,
        at: u32,
        x: &D::Element,
        word: u32,
        instruction: &Value,
    ) -> Result<Transferred<D::Element, <D::B as Base>::Word>, NoMemory>
        requires ready { IsReady self.now D.B.algebra (D.is_for self.now.domain.now) }
        requires code { IsTrue (is_code (problem self.now).addresses at) }
        requires fits { (D.elements self.now.domain.now).fits (D.view x.now) }
        requires decoded { decoded self.now.machine.instr (problem self.now).spec.rows word ≡ Some (val instruction.now) }
        ensures { IfOk result (λ r. IsOutcome (D.elements self.now.domain.now) D.view r
            (plain.outcome_of D.B.algebra (D.meaning self.now.domain.now) (problem self.now) (D.view x.now)
            (calls_of D.B.algebra D.B.CAP (D.meaning self.now.domain.now) (problem self.now) at self.now.machine.interp
            (plain.arguments D.B.algebra D.B.CAP (D.meaning self.now.domain.now) (problem self.now) at (D.view x.now) (val instruction.now))))) }
    {
        let ctx = self.domain.ctx(alloc)?;
        let args = self.arguments(alloc, &ctx, at, x, word, instruction)?;
        let mut log = Log::new(alloc);
        match self.evaluate(alloc, &ctx, at, args, &mut log) {
            Ok(Some(state)) => self.outcome_of_state(alloc, &ctx, x, &state, &log),
            Ok(None) => self.outcome_without_state(alloc, &log),
            // Widening ends each activation.
            Err(
                EvalError::OutOfFuel {
                    function: _function,
                },
            ) => unreachable!(),
            Err(EvalError::NoMemory) => Err(NoMemory),
        }
    }

    /// The instruction and the opened element.
    fn arguments(
        &self,
        alloc: Global,
        ctx: &<D::B as Base>::Ctx,
        at: u32,
        x: &D::Element,
        word: u32,
        instruction: &Value,
    ) -> Result<Vec<AbstractValue<D::B>>, NoMemory>
        requires ready { IsReady self.now D.B.algebra (D.is_for self.now.domain.now) }
        requires context { ctx.now ≡ (D.meaning self.now.domain.now).context }
        requires fits { (D.elements self.now.domain.now).fits (D.view x.now) }
        requires decoded { decoded self.now.machine.instr (problem self.now).spec.rows word ≡ Some (val instruction.now) }
        ensures { IfOk result (λ r. map abs r.items ≡ plain.arguments D.B.algebra D.B.CAP (D.meaning self.now.domain.now) (problem self.now) at
            (D.view x.now) (val instruction.now)) }
    {
        let mut args = Vec::with_capacity(alloc, 2)?;
        put(
            &mut args,
            AbstractValue::of_value(alloc, ctx, self.spec, instruction)?,
        )?;
        put(&mut args, self.domain.open(alloc, self.spec, x, at)?)?;
        Ok(args)
    }

    /// What the function of instructions gives, evaluated at an address, with its reads in the log, which was empty.
    fn evaluate(
        &self,
        alloc: Global,
        ctx: &<D::B as Base>::Ctx,
        at: u32,
        args: Vec<AbstractValue<D::B>>,
        log: &mut Log,
    ) -> Result<Option<AbstractValue<D::B>>, EvalError>
        requires ready { IsReady self.now D.B.algebra (D.is_for self.now.domain.now) }
        requires context { ctx.now ≡ (D.meaning self.now.domain.now).context }
        requires args { AreArguments D.B.algebra (D.meaning self.now.domain.now).context D.B.CAP (problem self.now).spec self.now.machine.interp
            (map abs args.items) }
        requires log { uses_of log.old ≡ [] }
        ensures { Gives abs result (uses_of log.new) (calls_of D.B.algebra D.B.CAP (D.meaning self.now.domain.now) (problem self.now) at
            self.now.machine.interp (map abs args.items)) }
    {
        let setting = Setting {
            spec: self.spec,
            cir: self.cir,
            ctx,
            at,
            policy: Policy::Widen {
                unroll: UNROLLED_TURNS,
                delay: JOINED_TURNS,
            },
        };
        eval_anew(alloc, &setting, self.machine.interp, args, log)
    }

    /// The outcome behind an instruction that gave a state, before which this element stood.
    fn outcome_of_state(
        &self,
        alloc: Global,
        ctx: &<D::B as Base>::Ctx,
        before: &D::Element,
        state: &AbstractValue<D::B>,
        log: &Log,
    ) -> Result<Transferred<D::Element, <D::B as Base>::Word>, NoMemory>
        requires ready { IsReady self.now D.B.algebra (D.is_for self.now.domain.now) }
        requires context { ctx.now ≡ (D.meaning self.now.domain.now).context }
        requires fits { (D.elements self.now.domain.now).fits (D.view before.now) }
        requires state { IsCountedState D.B.algebra (D.meaning self.now.domain.now).context D.B.CAP (state_type (problem self.now).spec) (abs state.now) }
        ensures { IfOk result (λ r. IsOutcome (D.elements self.now.domain.now) D.view r
            (plain.moved D.B.algebra (D.meaning self.now.domain.now) (problem self.now) (D.view before.now) (abs state.now) (uses_of log.now)
            (counter_of (abs state.now)))) }
    {
        match counter_of(state) {
            Some((_w, counter)) => self.outcome_behind(alloc, ctx, before, state, log, counter),
            None => self.outcome_without_state(alloc, log),
        }
    }

    /// The outcome where the new counter is this word: its members are the targets.
    fn outcome_behind(
        &self,
        alloc: Global,
        ctx: &<D::B as Base>::Ctx,
        before: &D::Element,
        state: &AbstractValue<D::B>,
        log: &Log,
        counter: &<D::B as Base>::Word,
    ) -> Result<Transferred<D::Element, <D::B as Base>::Word>, NoMemory>
        requires ready { IsReady self.now D.B.algebra (D.is_for self.now.domain.now) }
        requires context { ctx.now ≡ (D.meaning self.now.domain.now).context }
        requires fits { (D.elements self.now.domain.now).fits (D.view before.now) }
        requires state { IsStateValue D.B.algebra (D.meaning self.now.domain.now).context D.B.CAP (state_type (problem self.now).spec) (abs state.now) }
        requires counter { D.B.algebra.words.fits (D.meaning self.now.domain.now).context 32 counter.now }
        ensures { IfOk result (λ r. IsOutcome (D.elements self.now.domain.now) D.view r
            (plain.moved_to D.B.algebra (D.meaning self.now.domain.now) (problem self.now) (D.view before.now) (abs state.now) (uses_of log.now) counter.now
            (D.B.algebra.words.members (D.meaning self.now.domain.now).context 32 counter.now self.now.limit))) }
    {
        match targets::<D::B>(alloc, ctx, counter, self.limit)? {
            Some(targets) => {
                let post = self.domain.close(alloc, self.spec, before, state)?;
                let uses = self.uses(alloc, log)?;
                Ok(Transferred::Made(Transfer {
                    targets: Targets::List(targets),
                    post: Some(post),
                    uses,
                }))
            }
            None => {
                let shown = <D::B as Base>::copy(alloc, ctx, counter)?;
                Ok(Transferred::Made(Transfer {
                    targets: Targets::Many { shown },
                    post: None,
                    uses: self.uses(alloc, log)?,
                }))
            }
        }
    }

    /// The outcome without a state: no targets, and the uses of the log.
    fn outcome_without_state(
        &self,
        alloc: Global,
        log: &Log,
    ) -> Result<Transferred<D::Element, <D::B as Base>::Word>, NoMemory>
        requires ready { IsReady self.now D.B.algebra (D.is_for self.now.domain.now) }
        ensures { IfOk result (λ r. IsOutcome (D.elements self.now.domain.now) D.view r (moves [] None (uses_in (problem self.now) (uses_of log.now)))) }
    {
        let uses = self.uses(alloc, log)?;
        Ok(without_targets::<D>(alloc, uses))
    }

    /// The uses of the reads in a log, merged.
    fn uses(&self, alloc: Global, log: &Log) -> Result<Vec<Use>, NoMemory>
        requires ready { IsReady self.now D.B.algebra (D.is_for self.now.domain.now) }
        ensures { IfOk result (λ r. map seen r.items ≡ uses_in (problem self.now) (uses_of log.now)) }
    {
        merged_uses(alloc, self.fields, log)
    }
}

/// A transfer to nowhere, with these uses.
fn without_targets<D: Domain>(
    alloc: Global,
    uses: Vec<Use>,
) -> Transferred<D::Element, <D::B as Base>::Word>
    ensures { outcome D.view result ≡ moves [] None (map seen uses.items) }
{
    Transferred::Made(Transfer {
        targets: Targets::List(Vec::new(alloc)),
        post: None,
        uses,
    })
}
