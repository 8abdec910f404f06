//! Programs as text.

ghost use Rattle.std.specs.Prelude.{◌≡◌, ◌≤◌, IfOk, IfSome};
ghost use Rattle.test_cases.specs.Machine.{IsProgram};

use crate::machine::{Instr, Interval, TOP, Word};
use crate::program::Program;
use std::alloc::{AllocError as NoMemory, Global};

/// The text up to the first mark, and what is behind it.
pub(crate) fn parts<'a>(text: &'a str, mark: char) -> (&'a str, &'a str) {
    match text.split_once(mark) {
        Some(parts) => parts,
        None => (text, ""),
    }
}

/// An interval of the machine, as `0..9`.
pub(crate) fn interval(text: &str) -> Option<Interval>
    ensures { IfSome result (λ x. x.high ≤ 99) }
{
    let (low, high) = text.split_once("..")?;
    let low = low.parse::<u32>().ok()?;
    let high = high.parse::<u32>().ok()?;
    if high <= TOP {
        Some(Interval { low, high })
    } else {
        None
    }
}

fn instr(name: &str, operand: Option<u32>) -> Option<Instr> {
    match (name, operand) {
        ("set", Some(n)) => Some(Instr::Set(n)),
        ("add", Some(n)) => Some(Instr::Add(n)),
        ("goto", Some(to)) => Some(Instr::Goto(to)),
        ("fork", Some(to)) => Some(Instr::Fork(to)),
        ("wild", _) => Some(Instr::Wild),
        ("spin", _) => Some(Instr::Spin),
        ("bad", _) => Some(Instr::Bad),
        _ => None,
    }
}

/// A code word, as `4096 set 0`.
fn word(text: &str) -> Option<Word> {
    let (at, rest) = parts(text, ' ');
    let (name, operand) = parts(rest, ' ');
    Some(Word {
        at: at.parse::<u32>().ok()?,
        instr: instr(name, operand.parse::<u32>().ok())?,
    })
}

/// A program, as `4096 0..9: 4096 set 0, 4100 add 1`; without words `-`.
pub(crate) fn program(alloc: Global, text: &str) -> Result<Option<Program>, NoMemory>
    ensures { IfOk result (λ r. IfSome r (λ p. IsProgram p.code.items p.entry)) }
{
    let (head, body) = parts(text, ':');
    let (start, numbers) = parts(head, ' ');
    let (Some(start), Some(entry)) = (start.parse::<u32>().ok(), interval(numbers)) else {
        return Ok(None);
    };
    let mut code = Vec::new(alloc);
    if body != " -" {
        for part in body.split(',') {
            match word(part.trim()) {
                Some(word) => code.push(word)?,
                None => return Ok(None),
            }
        }
    }
    Ok(Program::new(code, start, entry))
}
