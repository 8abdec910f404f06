//! Prints code that is made from numbers, a case a line.
//!
//! A case is a number and how many words are made from it, in decimal; its code is printed in hex, with a space between its words. Of `entry` and `start` the
//! texts are printed. The folder has the cases in stdin; what they are to give, in stdout, is what `examples/instruction_mix.py` makes.
#![tactic(auto)]

use program_stress_code::{code_bytes, entry_text, start_text};
use std::alloc::{AllocError, Global};
use std::io;

/// The bytes of code in hex, with a space between words.
fn shown(alloc: Global, bytes: &[u8]) -> Result<String, AllocError> {
    let mut out = String::new(alloc);
    for (i, byte) in bytes.iter().enumerate() {
        if i % 4 == 0 && i > 0 {
            out.push_str(" ")?;
        }
        write!(out, "{byte:02x}")?;
    }
    Ok(out)
}

/// The code of a case, or that the line is none.
fn code(alloc: Global, line: &str) -> Result<String, AllocError> {
    let Some((number, count)) = line.split_once(' ') else {
        return String::from_str(alloc, "no case");
    };
    match (number.parse::<u32>(), count.parse::<u32>()) {
        (Ok(number), Ok(count)) => shown(alloc, &code_bytes(alloc, number, count)?),
        _ => String::from_str(alloc, "no case"),
    }
}

/// What a line gives.
fn answer(alloc: Global, line: &str) -> Result<String, AllocError> {
    match line {
        "entry" => String::from_str(alloc, entry_text()),
        "start" => String::from_str(alloc, start_text()),
        _ => code(alloc, line),
    }
}

fn main(rt: HostRuntime) -> io::Result<()> {
    let alloc = rt.alloc();
    for line in rt.lines(alloc) {
        let line = line?;
        println!(rt; "{}", line.as_str())?;
        println!(rt; "{}", answer(alloc, line.as_str())?)?;
    }
    Ok(())
}
