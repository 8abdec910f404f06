//! Prints what the calls of the domain of affine relations give, a case a line.
//!
//! A case begins with the fields of a state behind the counter, of which `a: INT32, r: Two` are a word and a map of two words.
//! The map types are in `machine`. Then comes one of these:
//!
//! - `tracked`: the tracked cells, each its field, numbered from 1, and its key, if any.
//! - `open X`: the state value of an element at 1000.
//! - `X | Y`: whether X absorbs Y and Y absorbs X, so twice `true` where both are the same, and the ranks of both.
//! - `N times CALL`: does a call N times, to take its time.
//!
//! An element is a list of rows in hex, `1 5 7;0 1 1`, or `entry E` with a `;` for each line end, or `join X and Y`, `widen X by
//! Y` or `copy X`, or `close X with CHANGES`: the state value of X with the changes, closed. How changes and state values are
//! written, says the head of `test_affine_text`.
//!
//! The folder has the cases in stdin and what they are to give in stdout, which was worked out by hand from the rules.
#![tactic(auto)]

mod cases;
mod elements;
mod machine;
mod rows;
mod times;

use cases::push_answer;
use std::io;

fn main(rt: HostRuntime) -> io::Result<()> {
    let alloc = rt.alloc();
    for line in rt.lines(alloc) {
        let line = line?;
        println!(rt; "{}", line.as_str())?;
        let mut found = String::new(alloc);
        push_answer(alloc, &mut found, line.as_str())?;
        print!(rt; "{}", found.as_str())?;
    }
    Ok(())
}
