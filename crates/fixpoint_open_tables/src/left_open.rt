//! Analysers whose tables are left open.

ghost use Rattle.std.specs.Prelude.{◌≡◌, [], None, map};
ghost use Rattle.base_trait.specs.Uses.{seen};
ghost use Rattle.fixpoint_theory.specs.Outcome.{moves};
ghost use Rattle.fixpoint_theory.specs.Views.{outcome};

use base_trait::Use;
use fixpoint_theory::{Analyser, Described, Targets, Transfer, Transferred};
use std::alloc::{AllocError as NoMemory, Global};
use std::sync::ledger::Ledger;
use support_step_counter::Steps;

/// An analyser whose transfers never stop an analysis: where a word has no decoding or the targets are too many, there
/// are no targets and no element behind the instruction.
///
/// Its machine begins as that of the analyser below and makes no step, since what a table says that is left open ends
/// at its open addresses; `laws::open_tables_are_sound` has what it says of the runs of the analyser's own machine.
#[derive(Drop)]
pub struct LeftOpen<'a, A: Analyser> {
    pub of: &'a A,
}

/// The transfer where there are no targets.
fn without_targets<A: Analyser>(alloc: Global, uses: Vec<Use>) -> Transferred<A::Element, A::Shown>
    ensures { outcome A.view result ≡ moves [] None (map seen uses.items) }
{
    Transferred::Made(Transfer {
        targets: Targets::List(Vec::new(alloc)),
        post: None,
        uses,
    })
}

impl<'a, A: Analyser> Analyser for LeftOpen<'a, A> {
    ghost use Rattle.fixpoint_open_tables.specs.Instance.{left_open_laws};
    ghost use Rattle.fixpoint_open_tables.specs.LeftOpen.{halted, left_open};

    type Element = A::Element;

    type Shown = A::Shown;

    ghost Plain = { A.Plain };

    ghost view = { A.view };

    ghost State = { A.State };

    ghost IsReady = { λ it. A.IsReady it.of.now };

    ghost analysis = { λ it. left_open (A.analysis it.of.now) };

    ghost machine = { λ it. halted (A.analysis it.of.now) (A.machine it.of.now) };

    ghost laws = { λ it ready. left_open_laws (A.analysis it.of.now) (A.laws it.of.now ready) };

    fn is_code(&self, at: u32) -> bool {
        self.of.is_code(at)
    }

    fn start(&self) -> u32 {
        self.of.start()
    }

    fn joins(&self) -> u32 {
        self.of.joins()
    }

    fn entry(&self, alloc: Global) -> Result<A::Element, NoMemory> {
        self.of.entry(alloc)
    }

    fn join(&self, alloc: Global, x: &A::Element, y: &A::Element) -> Result<A::Element, NoMemory> {
        self.of.join(alloc, x, y)
    }

    fn widen(
        &self,
        alloc: Global,
        old: &A::Element,
        new: &A::Element,
    ) -> Result<A::Element, NoMemory> {
        self.of.widen(alloc, old, new)
    }

    fn absorbs(&self, old: &A::Element, new: &A::Element) -> bool {
        self.of.absorbs(old, new)
    }

    fn copy(&self, alloc: Global, x: &A::Element) -> Result<A::Element, NoMemory> {
        self.of.copy(alloc, x)
    }

    fn transfer<L: Ledger>(
        &self,
        alloc: Global,
        at: u32,
        x: &A::Element,
        steps: &mut Steps<L>,
    ) -> Result<Transferred<A::Element, A::Shown>, NoMemory> {
        let Transfer {
            targets,
            post,
            uses,
        } = match self.of.transfer(alloc, at, x, steps)? {
            Transferred::Undecodable { word: _word } => {
                // the analyser below has made no step
                steps.tick();
                return Ok(without_targets::<A>(alloc, Vec::new(alloc)));
            }
            Transferred::Sent { arrivals, uses } => {
                return Ok(Transferred::Sent { arrivals, uses });
            }
            Transferred::Made(made) => made,
        };
        match targets {
            Targets::Many { shown: _shown } => Ok(without_targets::<A>(alloc, uses)),
            Targets::List(targets) => Ok(Transferred::Made(Transfer {
                targets: Targets::List(targets),
                post,
                uses,
            })),
        }
    }
}

impl<'a, A: Described> Described for LeftOpen<'a, A> {
    ghost use Rattle.fixpoint_open_tables.specs.Instance.{halted_sound};

    ghost sound = { λ it ready. halted_sound (A.analysis it.of.now) (A.machine it.of.now) (A.sound it.of.now ready) };
}
