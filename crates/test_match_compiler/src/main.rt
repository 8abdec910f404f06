//! Prints what the compilation of matches gives, a line for each line of its input.
//!
//! A line `types bool | word8 type0 ; -` declares types for the lines below it, and says how many: type 0 has two constructors,
//! the second with two fields, and type 1 has one without fields. A line `bool | true ; x3` is a match on a truth value with two
//! rows, the second a variable. It says the decision tree, the values that no row takes, or the first row that is never chosen;
//! `no match` where the types or the rows are none. `reading` has the texts of shapes and rows, and `writing` that of a tree.
//!
//! A line `chain 5` makes a decision of five questions, one below the other, says the row at its end and lets it go.
//!
//! The folder has the cases in stdin and what they are to give in stdout, which a script computed from the rule of `spec_match_compiler`.
#![tactic(auto)]

mod answer;
mod chain;
mod premises;
mod reading;
mod writing;

use answer::answer;
use std::io;

fn main(rt: HostRuntime) -> io::Result<()> {
    let alloc = rt.alloc();
    let mut types = String::new(alloc);
    for line in rt.lines(alloc) {
        let line = line?;
        let found = answer(alloc, &mut types, line.as_str())?;
        println!(rt; "{} is {}", line.as_str(), found.as_str())?;
    }
    Ok(())
}
