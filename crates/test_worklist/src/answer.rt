//! What a line gives.

ghost use Rattle.std.specs.Prelude.{◌≡◌, ◌<◌};
ghost use Rattle.fixpoint_theory.specs.Table.{TableFits};
ghost use Rattle.fixpoint_theory.specs.Views.{listings};
ghost use Rattle.test_worklist.specs.Machine.{IsProgram, analysis_of};

use crate::left_open::{analysed_open, checked_open, endings};
use crate::machine::Interval;
use crate::program::Program;
use crate::reading::{parts, program, table};
use crate::writing::{joined, table_text, verdict_text};
use fixpoint_table_check::check;
use fixpoint_theory::Table;
use fixpoint_worklist::{AnalyseError, analyse};
use std::alloc::{AllocError as NoMemory, Global};
use std::marker::Brand;
use std::sync::ledger::{Blank, Ledger};
use support_step_counter::Steps;

/// The trace and the table of an analysis, or how it stopped.
fn analysed<L: Ledger>(alloc: Global, program: &Program, blank: Blank) -> Result<String, NoMemory>
    requires ready { IsProgram program.now.code.items program.now.entry }
    requires name { blank.name ≡ L.name }
    requires parts { blank.parts ≡ L.parts }
    requires some { 0 < blank.parts }
{
    let mut steps: Steps<L> = Steps::new(blank);
    match analyse(alloc, program, &mut steps) {
        Ok(report) => {
            let trace = joined(alloc, &report.trace)?;
            let table = table_text(alloc, &report.table)?;
            format!(in alloc; "trace {} table {}", trace.as_str(), table.as_str())
        }
        Err(AnalyseError::Undecodable { at, word, trace }) => {
            let trace = joined(alloc, &trace)?;
            format!(in alloc; "trace {} undecodable {at} {word}", trace.as_str())
        }
        Err(AnalyseError::TooManyTargets { at, shown, trace }) => {
            let Interval { low, high } = shown;
            let trace = joined(alloc, &trace)?;
            format!(in alloc; "trace {} too many {at} {low}..{high}", trace.as_str())
        }
        Err(AnalyseError::NoMemory) => Err(NoMemory),
    }
}

/// The verdict on a table.
fn checked<L: Ledger>(
    alloc: Global,
    program: &Program,
    table: &Table<Interval>,
    blank: Blank,
) -> Result<String, NoMemory>
    requires ready { IsProgram program.now.code.items program.now.entry }
    requires name { blank.name ≡ L.name }
    requires parts { blank.parts ≡ L.parts }
    requires some { 0 < blank.parts }
    requires fits { TableFits (analysis_of program.now.code.items program.now.start program.now.entry) (listings (λ x. x) table.now) }
{
    let mut steps: Steps<L> = Steps::new(blank);
    let verdict = check(alloc, program, table, &mut steps)?;
    verdict_text(alloc, &verdict)
}

/// What a line gives whose table is left open: behind the table stand its endings, after another `;`.
fn open_answer(alloc: Global, line: &str) -> Result<String, NoMemory> {
    let (code, listed) = parts(line, ';');
    let Some(program) = program(alloc, code)? else {
        return format!(in alloc; "no program");
    };
    if listed.is_empty() {
        return analysed_open::<Brand>(alloc, &program, Blank::new(1));
    }
    let (listed, ends) = parts(listed.trim(), ';');
    let Some(table) = table(alloc, &program, listed)? else {
        return format!(in alloc; "no table");
    };
    match endings(alloc, ends.trim())? {
        Some(endings) => { checked_open::<Brand>(alloc, &program, &table, &endings, Blank::new(1)) }
        None => format!(in alloc; "no endings"),
    }
}

/// What a line gives: a program is analysed, and a program with a table behind a `;` is checked. Where the line begins with
/// `open`, tables are left open.
pub(crate) fn answer(alloc: Global, line: &str) -> Result<String, NoMemory> {
    if let Some(rest) = line.strip_prefix("open ") {
        return open_answer(alloc, rest);
    }
    let (code, listed) = match line.split_once("; ") {
        Some((code, listed)) => (code, Some(listed)),
        None => (line, None),
    };
    let Some(program) = program(alloc, code)? else {
        return format!(in alloc; "no program");
    };
    match listed {
        None => analysed::<Brand>(alloc, &program, Blank::new(1)),
        Some(listed) => match table(alloc, &program, listed)? {
            Some(table) => checked::<Brand>(alloc, &program, &table, Blank::new(1)),
            None => format!(in alloc; "no table"),
        },
    }
}
