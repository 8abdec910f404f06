//! Prints the cells that an element is cut at before an instruction, a case a line.
//!
//! A case is `ppc` or `rv` and code words in hex. Of each word are told the cells that its instruction compares with known numbers, in the order of
//! evaluation: the field of the state behind the counter, counted from 1, with the key of a map, and the numbers at which the cell is cut. The folder has the cases in
//! stdin and what they are to give in stdout, which was worked out by hand from the specifications that are shipped and from docs/FORMATS.md, "Cases".
#![tactic(auto)]

mod choices;

use choices::found;
use std::io;

fn main(rt: HostRuntime) -> io::Result<()> {
    let alloc = rt.alloc();
    for line in rt.lines(alloc) {
        let line = line?;
        println!(rt; "{}", line.as_str())?;
        let found = found(alloc, line.as_str())?;
        for part in found.as_str().split('\n') {
            println!(rt; "    {part}")?;
        }
    }
    Ok(())
}
