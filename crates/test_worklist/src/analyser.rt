//! Programs of the machine, analysed with intervals.

use crate::execute::execute;
use crate::machine::{Instr, Interval, TOP};
use crate::program::Program;
use fixpoint_theory::{Analyser, Described, Transferred};
use std::alloc::{AllocError as NoMemory, Global};
use std::sync::ledger::Ledger;
use support_step_counter::Steps;

impl Analyser for Program {
    ghost use Rattle.test_worklist.specs.declared.machine.Interval.{Interval};
    ghost use Rattle.test_worklist.specs.declared.machine.State.{State};
    ghost use Rattle.test_worklist.specs.Machine.{IsProgram, analysis_of, machine_of};
    ghost use Rattle.test_worklist.specs.MachineLaws.{analysis_laws};

    type Element = Interval;

    type Shown = Interval;

    ghost Plain = { Interval };

    ghost view = { λ x. x };

    ghost State = { State };

    ghost IsReady = { λ it. IsProgram it.code.items it.entry };

    ghost analysis = { λ it. analysis_of it.code.items it.start it.entry };

    ghost machine = { λ it. machine_of it.code.items it.start it.entry };

    ghost laws = { λ it ready. analysis_laws it.code.items it.start it.entry ready };

    fn is_code(&self, at: u32) -> bool {
        self.code.iter().map(|w| w.at).any(|a| a == at)
    }

    fn start(&self) -> u32 {
        self.start
    }

    fn joins(&self) -> u32 {
        3
    }

    fn entry(&self, _alloc: Global) -> Result<Interval, NoMemory> {
        Ok(self.entry)
    }

    fn join(&self, _alloc: Global, x: &Interval, y: &Interval) -> Result<Interval, NoMemory> {
        Ok(Interval {
            low: x.low.min(y.low),
            high: x.high.max(y.high),
        })
    }

    // An end that moved goes to the last number on its side.
    fn widen(&self, _alloc: Global, old: &Interval, new: &Interval) -> Result<Interval, NoMemory> {
        Ok(Interval {
            low: if new.low < old.low { 0 } else { old.low },
            high: if old.high < new.high { TOP } else { old.high },
        })
    }

    fn absorbs(&self, old: &Interval, new: &Interval) -> bool {
        old.low <= new.low && new.high <= old.high
    }

    fn copy(&self, _alloc: Global, x: &Interval) -> Result<Interval, NoMemory> {
        Ok(*x)
    }

    fn transfer<L: Ledger>(
        &self,
        alloc: Global,
        at: u32,
        x: &Interval,
        steps: &mut Steps<L>,
    ) -> Result<Transferred<Interval, Interval>, NoMemory> {
        match self.instr_at(at) {
            None | Some(Instr::Bad) => Ok(Transferred::Undecodable { word: 0 }),
            Some(instr) => {
                steps.tick();
                execute(alloc, at, instr, *x)
            }
        }
    }
}

impl Described for Program {
    ghost use Rattle.test_worklist.specs.MachineSound.{machine_sound};

    ghost sound = { λ it ready. machine_sound it.code.items it.start it.entry };
}
