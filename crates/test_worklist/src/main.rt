//! Prints what the worklist and the checker give over a small machine, a case a line.
//!
//! The machine has one number from 0 to 99 and the instructions of `machine`; elements are intervals of it. A line
//! is a program: where it starts, with which numbers, and its words by their addresses, as `4096 0..9: 4096 set 0,
//! 4100 add 1`. The answer is the trace and the table of its analysis. Where a table follows behind a `;`, the
//! answer is the verdict on it. Before both may stand `open`: then tables are left open, and the endings of open blocks
//! are printed or stand behind the table. The folder has the cases in stdin and what they are to give in stdout, which a
//! script computed from the rules.
//!
//! `analyser` shows that the laws of an analysis can be met, and soundness with them: so the table that is printed
//! is sound for the machine.
#![tactic(auto)]

mod analyser;
mod answer;
mod execute;
mod left_open;
mod machine;
mod program;
mod reading;
mod writing;

use answer::answer;
use std::io;

fn main(rt: HostRuntime) -> io::Result<()> {
    let alloc = rt.alloc();
    for line in rt.lines(alloc) {
        let line = line?;
        let found = answer(alloc, line.as_str())?;
        println!(rt; "{} is {}", line.as_str(), found.as_str())?;
    }
    Ok(())
}
