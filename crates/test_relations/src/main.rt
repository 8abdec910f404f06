//! Analyses code words over affine relations and over pairs of domains, and checks the tables that come out, a case a line.
//!
//! A case is a domain, a machine, the code words at 00001000 in hex, and an entry, with a `;` for each line end: of
//! `affine mini | 02000021 | pc 00001000;r[0] any` it says the addresses at which transfers were made, the block of each
//! address, and the verdict of the checker on that table, on the table without its last block, and on the table without
//! the last exit of its last block, or else its last next address. How elements are written, and read, says the head of `test_relation_cases`.
//!
//! A fourth part of a case is an address and an element, `00001004 r[0] any & r[0] 1 / r[0] 2`. Then the case says whether the
//! table's element there absorbs this one, and the other way round, and the verdict on the table with this one in its place.
//!
//! The folder has the cases in stdin and what they are to give in stdout, which was worked out by hand from the rules.
#![tactic(auto)]

mod named;

use named::Domains;
use std::io;
use test_analysis_cases::answer;

fn main(rt: HostRuntime) -> io::Result<()> {
    let alloc = rt.alloc();
    for line in rt.lines(alloc) {
        let line = line?;
        println!(rt; "{}", line.as_str())?;
        let found = answer::<Domains>(alloc, line.as_str())?;
        print!(rt; "{}", found.as_str())?;
    }
    Ok(())
}
