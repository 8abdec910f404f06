//! Prints what affine forms give, a case a line, over two tracked cells r and s: of `Add 32 5:1:2 =3` it says `8:1:2`, as
//! the sum of 5 + r + 2s and 3 is 8 + r + 2s.
//!
//! The folder has the cases in stdin and what they are to give in stdout, worked out by hand.
#![tactic(auto)]

mod forms;

use domain_affine_base::Tracked;
use forms::Forms;
use semantics_values::KeyAt;
use std::io;
use test_case_lines::answer;

fn main(rt: HostRuntime) -> io::Result<()> {
    let alloc = rt.alloc();
    let cells = vec![in alloc; (1u32, KeyAt::Whole), (2u32, KeyAt::At(3))]?;
    let tracked = Tracked { cells };
    for line in rt.lines(alloc) {
        let line = line?;
        let found = answer::<Forms>(alloc, &tracked, line.as_str())?;
        println!(rt; "{} is {}", line.as_str(), found.as_str())?;
    }
    Ok(())
}
