//! Prints what operations on words give, a case a line: of `Add 8 fa b` it says `5`.
//!
//! A case is the name of a call, the width in bits, and words in hex; a cast has its other width last. The folder has the cases in stdin
//! and what they are to give in stdout, which a script computed from the definitions: the corners of each call at widths 1, 8, 32, 33 and
//! 64.
#![tactic(auto)]

mod calls;

use calls::given;
use std::io;

fn main(rt: HostRuntime) -> io::Result<()> {
    let alloc = rt.alloc();
    for line in rt.lines(alloc) {
        let line = line?;
        match given(line.as_str()) {
            Some(answer) => println!(rt; "{} is {answer}", line.as_str())?,
            None => println!(rt; "{} is no case", line.as_str())?,
        }
    }
    Ok(())
}
