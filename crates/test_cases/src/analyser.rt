//! Programs of the machine, analysed with intervals that are split at 50.

use crate::execute::execute;
use crate::machine::{HALF, Instr, Interval, TOP};
use crate::program::Program;
use base_trait::Use;
use fixpoint_case_leaves::SplitAnalyser;
use fixpoint_theory::Transferred;
use std::alloc::{AllocError as NoMemory, Global};
use std::sync::ledger::Ledger;
use support_step_counter::Steps;

impl SplitAnalyser for Program {
    ghost use Rattle.test_cases.specs.declared.machine.Interval.{Interval};
    ghost use Rattle.test_cases.specs.declared.machine.State.{State};
    ghost use Rattle.test_cases.specs.Machine.{IsProgram, analysis_of, machine_of};
    ghost use Rattle.test_cases.specs.Machine.{split_at};
    ghost use Rattle.test_cases.specs.MachineLaws.{analysis_laws};
    ghost use Rattle.test_cases.specs.MachineSound.{machine_sound};
    ghost use Rattle.test_cases.specs.Splitting.{intervals_are_split, intervals_are_split_alike, uses_stay};

    type Element = Interval;

    type Shown = Interval;

    ghost Plain = { Interval };

    ghost view = { λ x. x };

    ghost State = { State };

    ghost IsReady = { λ it. IsProgram it.code.items it.entry };

    ghost analysis = { λ it. analysis_of it.code.items it.start it.entry };

    ghost machine = { λ it. machine_of it.code.items it.start it.entry };

    ghost split = { λ it. split_at };

    ghost merge = { λ it uses. uses };

    ghost laws = { λ it ready. analysis_laws it.code.items it.start it.entry ready };

    ghost sound = { λ it ready. machine_sound it.code.items it.start it.entry };

    ghost splits = { λ it ready. intervals_are_split };

    ghost alike = { λ it ready. intervals_are_split_alike };

    ghost merges = { λ it ready. uses_stay };

    fn is_code(&self, at: u32) -> bool {
        self.code.iter().map(|w| w.at).any(|a| a == at)
    }

    fn start(&self) -> u32 {
        self.start
    }

    fn joins(&self) -> u32 {
        3
    }

    fn entry(&self, _alloc: Global) -> Result<Interval, NoMemory> {
        Ok(self.entry)
    }

    fn join(&self, _alloc: Global, x: &Interval, y: &Interval) -> Result<Interval, NoMemory> {
        Ok(Interval {
            low: x.low.min(y.low),
            high: x.high.max(y.high),
        })
    }

    // An end that moved goes to the last number on its side.
    fn widen(&self, _alloc: Global, old: &Interval, new: &Interval) -> Result<Interval, NoMemory> {
        Ok(Interval {
            low: if new.low < old.low { 0 } else { old.low },
            high: if old.high < new.high { TOP } else { old.high },
        })
    }

    fn absorbs(&self, old: &Interval, new: &Interval) -> bool {
        old.low <= new.low && new.high <= old.high
    }

    fn copy(&self, _alloc: Global, x: &Interval) -> Result<Interval, NoMemory> {
        Ok(*x)
    }

    fn transfer<L: Ledger>(
        &self,
        alloc: Global,
        at: u32,
        x: &Interval,
        steps: &mut Steps<L>,
    ) -> Result<Transferred<Interval, Interval>, NoMemory> {
        match self.instr_at(at) {
            None | Some(Instr::Bad) => Ok(Transferred::Undecodable { word: 0 }),
            Some(instr) => {
                steps.tick();
                execute(alloc, at, instr, *x)
            }
        }
    }

    fn split(
        &self,
        alloc: Global,
        _at: u32,
        x: &Interval,
    ) -> Result<Option<Vec<Interval>>, NoMemory> {
        if x.low < HALF && HALF <= x.high {
            let mut pieces = Vec::new(alloc);
            pieces.push(Interval {
                low: x.low,
                high: HALF - 1,
            })?;
            pieces.push(Interval {
                low: HALF,
                high: x.high,
            })?;
            Ok(Some(pieces))
        } else {
            Ok(None)
        }
    }

    fn merged(&self, _alloc: Global, uses: Vec<Use>) -> Result<Vec<Use>, NoMemory> {
        Ok(uses)
    }
}
