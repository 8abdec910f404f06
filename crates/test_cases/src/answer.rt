//! What a line gives.

ghost use Rattle.std.specs.Prelude.{◌≡◌, ◌<◌};
ghost use Rattle.test_cases.specs.Machine.{IsProgram};

use crate::machine::Interval;
use crate::program::Program;
use crate::reading::program;
use crate::writing::{joined, table_text, verdict_text};
use fixpoint_case_leaves::ByCases;
use fixpoint_table_check::check;
use fixpoint_worklist::{AnalyseError, analyse};
use std::alloc::{AllocError as NoMemory, Global};
use std::marker::Brand;
use std::sync::ledger::{Blank, Ledger};
use support_step_counter::Steps;

/// The trace and the table of an analysis whose intervals are split so often over, with the verdict on the table; or how it stopped.
fn analysed<L: Ledger>(
    alloc: Global,
    program: &Program,
    depth: u32,
    blank: Blank,
) -> Result<String, NoMemory>
    requires ready { IsProgram program.now.code.items program.now.entry }
    requires name { blank.name ≡ L.name }
    requires parts { blank.parts ≡ L.parts }
    requires some { 0 < blank.parts }
{
    let analyser = ByCases { of: program, depth };
    let mut steps: Steps<L> = Steps::new(blank);
    match analyse(alloc, &analyser, &mut steps) {
        Ok(report) => {
            let trace = joined(alloc, &report.trace)?;
            let table = table_text(alloc, &report.table)?;
            let verdict = check(alloc, &analyser, &report.table, &mut steps)?;
            let verdict = verdict_text(alloc, &verdict)?;
            format!(in alloc;
                "trace {} table {} {}",
                trace.as_str(),
                table.as_str(),
                verdict.as_str()
            )
        }
        Err(AnalyseError::Undecodable { at, word, trace }) => {
            let trace = joined(alloc, &trace)?;
            format!(in alloc; "trace {} undecodable {at} {word}", trace.as_str())
        }
        Err(AnalyseError::TooManyTargets { at, shown, trace }) => {
            let Interval { low, high } = shown;
            let trace = joined(alloc, &trace)?;
            format!(in alloc; "trace {} too many {at} {low}..{high}", trace.as_str())
        }
        Err(AnalyseError::NoMemory) => Err(NoMemory),
    }
}

/// What a line gives: how often over intervals are split, and a program.
pub(crate) fn answer(alloc: Global, line: &str) -> Result<String, NoMemory> {
    let Some((depth, code)) = line.split_once(" ") else {
        return format!(in alloc; "no program");
    };
    let Ok(depth) = depth.parse::<u32>() else {
        return format!(in alloc; "no depth");
    };
    match program(alloc, code)? {
        Some(program) => analysed::<Brand>(alloc, &program, depth, Blank::new(1)),
        None => format!(in alloc; "no program"),
    }
}
