//! Prints what bases give, a case a line: of `set2 Add 8 {1,2} {ff}` it says `{0,1}`.
//!
//! A case is the name of a base and that of a call, and what the call takes. The bases are sets of at most 0, 2 and 16 numbers, single
//! numbers, definitions and uses, whose words are sets of at most 1, and pairs. Besides the calls of `test_case_lines` there are those on notes,
//! each told by the uses that a read of the note adds, and the sum of a word with the join of two others, by code that is proved from the
//! laws alone.
//!
//! The folder has the cases in stdin and what they are to give in stdout, which a script computed from the definitions.
#![tactic(auto)]

mod bases;
mod generic;
mod notations;
mod notes;

use bases::found;
use std::io;

fn main(rt: HostRuntime) -> io::Result<()> {
    let alloc = rt.alloc();
    for line in rt.lines(alloc) {
        let line = line?;
        let found = found(alloc, line.as_str())?;
        println!(rt; "{} is {}", line.as_str(), found.as_str())?;
    }
    Ok(())
}
