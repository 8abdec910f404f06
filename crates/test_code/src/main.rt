//! Prints what code comes to, a case a line.
//!
//! A case is the name of a call, an order of bytes, what else the call takes, and segments, each as `BASE:BYTES` in hex. `xN` in
//! the place of bytes stands for N bytes 0, N in decimal. Of `image` it says the segments in their order with how many words
//! each has, or the line of the first fault; of `fetch` the word at an address; of `rv` and `ppc` the listing by the
//! specification that is shipped. The folder has the cases in stdin and what they are to give in stdout, which was
//! worked out by hand from the manuals and the rules of images.
#![tactic(auto)]

mod code;
mod segments;

use code::answer;
use std::io;

fn main(rt: HostRuntime) -> io::Result<()> {
    let alloc = rt.alloc();
    for line in rt.lines(alloc) {
        let line = line?;
        println!(rt; "{}", line.as_str())?;
        let found = answer(alloc, line.as_str())?;
        for part in found.as_str().split('\n') {
            println!(rt; "    {part}")?;
        }
    }
    Ok(())
}
