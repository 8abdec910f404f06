//! Prints what small sets and strided intervals give, a case a line: of `- Add 8 0..40+4 {1,3}` it says `1..43+2`.
//!
//! A case begins with the stops of widening, in hex with commas between, or `-` where there are none: of
//! `64,c8 Widen 8 0..40+4 0..44+4` it says `0..64+4`. The rest is a case of `test_case_lines`.
//!
//! The folder has the cases in stdin and what they are to give in stdout, which a script computed from the
//! rules: the corners of each call at widths 1, 4, 8, 32 and 64.
#![tactic(auto)]

mod words;

use std::io;
use words::found;

fn main(rt: HostRuntime) -> io::Result<()> {
    let alloc = rt.alloc();
    for line in rt.lines(alloc) {
        let line = line?;
        let found = found(alloc, line.as_str())?;
        println!(rt; "{} is {}", line.as_str(), found.as_str())?;
    }
    Ok(())
}
