//! Prints what intervals give, a case a line: of `Add 8 fa..fb 3..4` it says `fd..ff`.
//!
//! The folder has the cases in stdin and what they are to give in stdout, which a script computed from the
//! rules: the corners of each call at widths 1, 8, 32 and 64.
#![tactic(auto)]

mod intervals;

use intervals::Intervals;
use std::io;
use test_case_lines::answer;

fn main(rt: HostRuntime) -> io::Result<()> {
    let alloc = rt.alloc();
    for line in rt.lines(alloc) {
        let line = line?;
        let found = answer::<Intervals>(alloc, &(), line.as_str())?;
        println!(rt; "{} is {}", line.as_str(), found.as_str())?;
    }
    Ok(())
}
