//! What a line gives whose table is left open.

ghost use Rattle.std.specs.Prelude.{◌≡◌, ◌<◌};
ghost use Rattle.fixpoint_theory.specs.Table.{TableFits};
ghost use Rattle.fixpoint_theory.specs.Views.{listings};
ghost use Rattle.test_worklist.specs.Machine.{IsProgram, analysis_of};

use crate::machine::Interval;
use crate::program::Program;
use crate::reading::{interval, parts};
use crate::writing::{endings_text, joined, table_text, verdict_text};
use fixpoint_open_tables::{Ending, Endings, OpenReport, analyse, check};
use fixpoint_theory::Table;
use std::alloc::{AllocError as NoMemory, Global};
use std::sync::ledger::{Blank, Ledger};
use support_step_counter::Steps;

/// The trace, the table and the endings of an analysis.
pub(crate) fn analysed_open<L: Ledger>(
    alloc: Global,
    program: &Program,
    blank: Blank,
) -> Result<String, NoMemory>
    requires ready { IsProgram program.now.code.items program.now.entry }
    requires name { blank.name ≡ L.name }
    requires parts { blank.parts ≡ L.parts }
    requires some { 0 < blank.parts }
{
    let mut steps: Steps<L> = Steps::new(blank);
    let OpenReport { report, endings } = analyse(alloc, program, &mut steps)?;
    let trace = joined(alloc, &report.trace)?;
    let table = table_text(alloc, &report.table)?;
    let ends = endings_text(alloc, &report.table, &endings)?;
    format!(in alloc;
        "trace {} table {} endings {}",
        trace.as_str(),
        table.as_str(),
        ends.as_str()
    )
}

/// The verdict on a table with its endings.
pub(crate) fn checked_open<L: Ledger>(
    alloc: Global,
    program: &Program,
    table: &Table<Interval>,
    endings: &Endings<Interval>,
    blank: Blank,
) -> Result<String, NoMemory>
    requires ready { IsProgram program.now.code.items program.now.entry }
    requires name { blank.name ≡ L.name }
    requires parts { blank.parts ≡ L.parts }
    requires some { 0 < blank.parts }
    requires fits { TableFits (analysis_of program.now.code.items program.now.start program.now.entry) (listings (λ x. x) table.now) }
{
    let mut steps: Steps<L> = Steps::new(blank);
    let verdict = check(alloc, program, table, endings, &mut steps)?;
    verdict_text(alloc, &verdict)
}

/// How a block ends, as `open 0..9` or `undecodable 0`.
fn ending(text: &str) -> Option<Ending<Interval>> {
    let (name, rest) = text.split_once(' ')?;
    match name {
        "open" => Some(Ending::Open {
            shown: interval(rest)?,
        }),
        "undecodable" => Some(Ending::Undecodable {
            word: rest.parse::<u32>().ok()?,
        }),
        _ => None,
    }
}

/// Endings by their addresses, as `4104 undecodable 0, 4108 open 0..9`, or `-` where there are none.
pub(crate) fn endings(alloc: Global, text: &str) -> Result<Option<Endings<Interval>>, NoMemory> {
    let mut all = Endings::new(alloc);
    for part in text.split(',') {
        if part == "-" {
            continue;
        }
        let (at, rest) = parts(part.trim(), ' ');
        let (Some(at), Some(ending)) = (at.parse::<u32>().ok(), ending(rest)) else {
            return Ok(None);
        };
        all.insert(at, ending)?;
    }
    Ok(Some(all))
}
