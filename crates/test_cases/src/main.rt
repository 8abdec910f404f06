//! Prints what the worklist and the checker give by cases over a small machine, a case a line.
//!
//! The machine has one number from 0 to 99 and the instructions of `machine`; elements are intervals of it, split at 50 before each transfer as often over
//! as the line says. A line is that number and a program: where it starts, with which numbers, and its words by their addresses, as
//! `1 4096 0..99: 4096 fork 4104, 4100 spin, 4104 spin`. The answer is the trace and the table of its analysis, and the verdict on that. Split once, this
//! program has 0..49 at 4104 and 50..99 at 4100; not split, 0..99 at both. The folder has the cases in stdin and what they are to give in stdout,
//! which a script computed from the rules.
#![tactic(auto)]

mod analyser;
mod answer;
mod execute;
mod machine;
mod program;
mod reading;
mod writing;

use answer::answer;
use std::io;

fn main(rt: HostRuntime) -> io::Result<()> {
    let alloc = rt.alloc();
    for line in rt.lines(alloc) {
        let line = line?;
        let found = answer(alloc, line.as_str())?;
        println!(rt; "{} is {}", line.as_str(), found.as_str())?;
    }
    Ok(())
}
