//! Prints what entries give, a case a line: of `mini entry pc 0\nr[0] any` it says `entry 0 E6 r[0]`.
//!
//! A case is the name of a machine (src/machines.rt) and the text of an entry. Of an entry without faults that gives
//! each cell one number it says how many cells are given beside the program counter, and the text of the one state. A
//! case `mini bound 3 TEXT` has the stop line in front, as `left`, `undecodable` and `calls` do. In texts `\n`, `\r`,
//! `\t`, `\0` and `\f` stand for LF, CR, a tab, and the bytes 0 and 255. The folder has the cases in stdin and what
//! they are to give in stdout, which a script computed from the rules.
#![tactic(auto)]

mod calls;
mod machines;
mod text;

use calls::answer;
use machines::{mini, powerpc, wide};
use std::io;

fn main(rt: HostRuntime) -> io::Result<()> {
    let alloc = rt.alloc();
    let machines = [mini(alloc)?, powerpc(alloc)?, wide(alloc)?];
    for line in rt.lines(alloc) {
        let line = line?;
        let found = answer(alloc, &machines, line.as_str())?;
        println!(rt; "{} is {}", line.as_str(), found.as_str())?;
    }
    Ok(())
}
