//! Prints what words of known bits give, a case a line: of `Add 8 4/3 4/0` it says `0/f`.
//!
//! The folder has the cases in stdin and what they are to give in stdout, which a script computed from the
//! rules: the corners of each call at widths 1, 8, 32 and 64.
#![tactic(auto)]

mod words;

use std::io;
use test_case_lines::answer;
use words::Words;

fn main(rt: HostRuntime) -> io::Result<()> {
    let alloc = rt.alloc();
    for line in rt.lines(alloc) {
        let line = line?;
        let found = answer::<Words>(alloc, &(), line.as_str())?;
        println!(rt; "{} is {}", line.as_str(), found.as_str())?;
    }
    Ok(())
}
