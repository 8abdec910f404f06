//! Prints what the calls of the domain of cells give, a case a line: over sets of at most two numbers, and a machine with a
//! word `a` and a map `r`.
//!
//! A case is two entries, with a `;` for each line end. Of `a 5;r[2] 1 | a any` it says the elements of both, their join, the
//! first widened by the second, whether the join absorbs the second and the first absorbs the second, the ranks of the first
//! and of the join, the state value of the first at 4096, and what that closes to. A word is a set or `any`, and a map its rest
//! and then its listed keys. The folder has the cases in stdin and what they are to give in stdout, which was worked out by
//! hand from the rules.
#![tactic(auto)]

mod calls;
mod machine;
mod text;

use base_kset::KSet;
use calls::answer;
use domain_cells::StateDomain;
use machine::machine;
use std::io;

fn main(rt: HostRuntime) -> io::Result<()> {
    let alloc = rt.alloc();
    let Some(spec) = machine(alloc) else {
        println!(rt; "no machine")?;
        return Ok(());
    };
    let domain: StateDomain<KSet<2>> = StateDomain::new(alloc, &spec, ())?;
    for line in rt.lines(alloc) {
        let line = line?;
        println!(rt; "{}", line.as_str())?;
        let found = answer(alloc, &spec, &domain, line.as_str())?;
        print!(rt; "{}", found.as_str())?;
    }
    Ok(())
}
