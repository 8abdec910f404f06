//! Programs and tables as text.

ghost use Rattle.std.specs.Prelude.{◌≡◌, ◌≤◌, IfOk, IfSome};
ghost use Rattle.fixpoint_theory.specs.Table.{TableFits};
ghost use Rattle.fixpoint_theory.specs.Views.{listings};
ghost use Rattle.test_worklist.specs.Machine.{IsProgram, analysis_of};

use crate::execute::use_of_number;
use crate::machine::{Instr, Interval, TOP, Word};
use crate::program::Program;
use fixpoint_theory::{Analyser, Block, Table};
use std::alloc::{AllocError as NoMemory, Global};
use std::collections::BTreeMap;

/// The text up to the first mark, and what is behind it.
pub(crate) fn parts<'a>(text: &'a str, mark: char) -> (&'a str, &'a str) {
    match text.split_once(mark) {
        Some(parts) => parts,
        None => (text, ""),
    }
}

/// An interval of the machine, as `0..9`.
pub(crate) fn interval(text: &str) -> Option<Interval>
    ensures { IfSome result (λ x. x.high ≤ 99) }
{
    let (low, high) = text.split_once("..")?;
    let low = low.parse::<u32>().ok()?;
    let high = high.parse::<u32>().ok()?;
    if high <= TOP {
        Some(Interval { low, high })
    } else {
        None
    }
}

fn instr(name: &str, operand: Option<u32>) -> Option<Instr> {
    match (name, operand) {
        ("set", Some(n)) => Some(Instr::Set(n)),
        ("add", Some(n)) => Some(Instr::Add(n)),
        ("goto", Some(to)) => Some(Instr::Goto(to)),
        ("fork", Some(to)) => Some(Instr::Fork(to)),
        ("wild", _) => Some(Instr::Wild),
        ("spin", _) => Some(Instr::Spin),
        ("bad", _) => Some(Instr::Bad),
        _ => None,
    }
}

/// A code word, as `4096 set 0`.
fn word(text: &str) -> Option<Word> {
    let (at, rest) = parts(text, ' ');
    let (name, operand) = parts(rest, ' ');
    Some(Word {
        at: at.parse::<u32>().ok()?,
        instr: instr(name, operand.parse::<u32>().ok())?,
    })
}

/// A program, as `4096 0..9: 4096 set 0, 4100 add 1`; without words `-`.
pub(crate) fn program(alloc: Global, text: &str) -> Result<Option<Program>, NoMemory>
    ensures { IfOk result (λ r. IfSome r (λ p. IsProgram p.code.items p.entry)) }
{
    let (head, body) = parts(text, ':');
    let (start, numbers) = parts(head, ' ');
    let (Some(start), Some(entry)) = (start.parse::<u32>().ok(), interval(numbers)) else {
        return Ok(None);
    };
    let mut code = Vec::new(alloc);
    if body != " -" {
        for part in body.split(',') {
            match word(part.trim()) {
                Some(word) => code.push(word)?,
                None => return Ok(None),
            }
        }
    }
    Ok(Program::new(code, start, entry))
}

/// Addresses, as `4100+4104`, or `-` where there are none.
fn addresses(alloc: Global, text: &str) -> Result<Option<Vec<u32>>, NoMemory> {
    let mut all = Vec::new(alloc);
    if text == "-" {
        return Ok(Some(all));
    }
    for part in text.split('+') {
        match part.parse::<u32>() {
            Ok(at) => all.push(at)?,
            Err(_error) => return Ok(None),
        }
    }
    Ok(Some(all))
}

/// What a table lists of an address, behind it: the interval, the next addresses, the exits, and `x` where the number is read,
/// as `0..9 4100+4104 - x`.
fn block(alloc: Global, text: &str) -> Result<Option<Block<Interval>>, NoMemory>
    ensures { IfOk result (λ r. IfSome r (λ b. b.elem.high ≤ 99)) }
{
    let (numbers, rest) = parts(text, ' ');
    let (next, rest) = parts(rest, ' ');
    let (exits, read) = parts(rest, ' ');
    let Some(elem) = interval(numbers) else {
        return Ok(None);
    };
    let Some(next) = addresses(alloc, next)? else {
        return Ok(None);
    };
    let Some(exits) = addresses(alloc, exits)? else {
        return Ok(None);
    };
    let uses = if read == "x" {
        use_of_number(alloc)?
    } else {
        Vec::new(alloc)
    };
    Ok(Some(Block {
        elem,
        next,
        exits,
        uses,
    }))
}

/// A table of a program, as `4096 0..9 4100 - -, 4100 0..0 4104 - x`; without blocks `-`.
pub(crate) fn table(
    alloc: Global,
    program: &Program,
    text: &str,
) -> Result<Option<Table<Interval>>, NoMemory>
    ensures { IfOk result (λ r. IfSome r (λ t. TableFits (analysis_of program.now.code.items program.now.start program.now.entry) (listings (λ x. x) t))) }
{
    let mut blocks = BTreeMap::new(alloc);
    for part in text.split(',') {
        if part == "-" {
            continue;
        }
        let (at, rest) = parts(part.trim(), ' ');
        let Ok(at) = at.parse::<u32>() else {
            return Ok(None);
        };
        let Some(block) = block(alloc, rest)? else {
            return Ok(None);
        };
        if !program.is_code(at) {
            return Ok(None);
        }
        blocks.insert(at, block)?;
    }
    Ok(Some(Table { blocks }))
}
