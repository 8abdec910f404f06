//! Prints what is left of words that are cut, a case a line: of `set16 8 {1,4,9} 2 9` it says `4,9`.
//!
//! A case is the name of a base, a width, a word, and the two numbers between which it is cut; a pair has the word in both parts. Of what is left
//! are told the numbers, where they are at most 64.
//!
//! The folder has the cases in stdin and what they are to give in stdout, which a script computed from the definitions alone.
#![tactic(auto)]

mod cuts;

use cuts::found;
use std::io;

fn main(rt: HostRuntime) -> io::Result<()> {
    let alloc = rt.alloc();
    for line in rt.lines(alloc) {
        let line = line?;
        let found = found(alloc, line.as_str())?;
        println!(rt; "{} is {}", line.as_str(), found.as_str())?;
    }
    Ok(())
}
