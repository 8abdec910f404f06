//! Analyses code words over a base and checks the table that comes out, a case a line.
//!
//! A case is a base, a machine with the limit on targets where that is not 64, the code words at 00001000 in hex, and an
//! entry, with a `;` for each line end: `defuse mini | 01010005 02000025 | pc 00001000`. It is answered with the addresses at
//! which transfers were made, the block of each address, and the verdict of the checker on that table, on the table without
//! its last block, and on the table with one thing changed in that block: without its last exit, or else its last next
//! address; without its last use; with another exit; and with the entry's element. The folder has the cases in stdin and
//! what they are to give in stdout, which was worked out by hand from the rules.
#![tactic(auto)]

mod bases;
mod changes;
mod verdicts;

use bases::Bases;
use std::io;
use test_analysis_cases::answer;

fn main(rt: HostRuntime) -> io::Result<()> {
    let alloc = rt.alloc();
    for line in rt.lines(alloc) {
        let line = line?;
        println!(rt; "{}", line.as_str())?;
        let found = answer::<Bases>(alloc, line.as_str())?;
        print!(rt; "{}", found.as_str())?;
    }
    Ok(())
}
