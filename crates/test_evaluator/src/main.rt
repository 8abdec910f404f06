//! Evaluates functions of specifications over abstract words, a case a line.
//!
//! A line that begins with `#` says in words what the cases behind it show, and begins the text of another specification, to which each
//! line that is no case is added. A case is a base, a policy, a function and its arguments: `? kset widen 64 2 | f | {1,2} | any`,
//! or `? concrete stop 8 | f | {3}`. The bases are `concrete`, `kset`, `interval` and `kset+defuse`. Arguments go by their types:
//!
//! - a flag is `true`, `false`, `true or false` or `neither`;
//! - a word is a set in hex, as the base has it, so that of intervals `{1,3}` is the one from 1 to 3; or it is `any`;
//! - a map is its rest and its listed cells, keys in decimal, with stamps where these are not the entry alone:
//!   `[{0}; 2 {5} from entry,1000]`;
//! - a constructor value is `Dot`, or `Box({2}, {3})`, with fields that are none; `Dot + Box({2}, {3})` where both are present.
//!
//! The instruction stands at 1000. An answer is how many steps were ticked, how many entries the memo has then, and a value, or
//! `none`, or `deep` and a function; below stand the reads of the log. An interval is printed by its ends, and a word of a pair by its
//! parts. Then the same call is made again, with the same memo.
//!
//! The folder has the cases in stdin and what they are to give in stdout, which was worked out by hand from the rules.
#![tactic(auto)]

mod arguments;
mod called;
mod cases;
mod text;

use cases::answer;
use std::io;

fn main(rt: HostRuntime) -> io::Result<()> {
    let alloc = rt.alloc();
    let mut source = String::new(alloc);
    for line in rt.lines(alloc) {
        let line = line?;
        println!(rt; "{}", line.as_str())?;
        if line.as_str().starts_with("#") {
            source = String::new(alloc);
        } else if let Some(case) = line.as_str().strip_prefix("? ") {
            let found = answer(alloc, source.as_str(), case)?;
            print!(rt; "{}", found.as_str())?;
        } else {
            source.push_str(line.as_str())?;
            source.push('\n')?;
        }
    }
    Ok(())
}
