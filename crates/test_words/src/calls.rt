//! What a call gives.

ghost use Rattle.std.specs.Prelude.{◌<◌, ◌^◌, IfSome};
ghost use Rattle.word_operations.specs.Width.{IsWidth};

use std::fmt;
use test_case_lines::{cmp_named, is_word, number, op1_named, op2_named, parts, width};
use word_operations::{cmp, greatest, op1, op2, sext, trunc, zext};

/// A word, or whether a comparison holds.
#[derive(Clone, Copy)]
pub(crate) enum Answer {
    Word(u64),
    Truth(bool),
}

impl fmt::Display for Answer {
    fn fmt<W: fmt::Write>(&self, f: &mut fmt::Formatter<W>) -> fmt::Result {
        match self {
            Answer::Word(x) => write!(f, "{x:x}"),
            Answer::Truth(is) => write!(f, "{is}"),
        }
    }
}

/// What the call of a line gives, if it is a case.
pub(crate) fn given(line: &str) -> Option<Answer> {
    let (name, rest) = parts(line);
    let (bits, rest) = parts(rest);
    let (first, second) = parts(rest);
    let w = width(bits)?;
    if name == "Greatest" && first.is_empty() {
        return Some(Answer::Word(greatest(w)));
    }
    let x = word(w, first)?;
    match name {
        "Zext" | "Sext" | "Trunc" => cast(name, w, x, width(second)?),
        _ if second.is_empty() => of_one(name, w, x),
        _ => of_two(name, w, x, word(w, second)?),
    }
}

/// The word of a text, if it is one of the width.
fn word(w: u32, text: &str) -> Option<u64>
    requires { IsWidth w }
    ensures { IfSome result (λ x. x < 2 ^ w) }
{
    let x = number(text)?;
    if is_word(w, x) { Some(x) } else { None }
}

/// What a cast gives from the one width to the other.
fn cast(name: &str, from: u32, x: u64, to: u32) -> Option<Answer>
    requires from_width { IsWidth from }
    requires to_width { IsWidth to }
    requires word { x < 2 ^ from }
{
    match name {
        "Zext" if from <= to => Some(Answer::Word(zext(from, to, x))),
        "Sext" if from <= to => Some(Answer::Word(sext(from, to, x))),
        "Trunc" if to <= from => Some(Answer::Word(trunc(from, to, x))),
        _ => None,
    }
}

/// What an operation on one word gives.
fn of_one(name: &str, w: u32, x: u64) -> Option<Answer>
    requires width { IsWidth w }
    requires word { x < 2 ^ w }
{
    let op = op1_named(name)?;
    Some(Answer::Word(op1(op, w, x)))
}

/// What an operation on two words or a comparison gives.
fn of_two(name: &str, w: u32, x: u64, y: u64) -> Option<Answer>
    requires width { IsWidth w }
    requires left { x < 2 ^ w }
    requires right { y < 2 ^ w }
{
    if let Some(op) = op2_named(name) {
        return Some(Answer::Word(op2(op, w, x, y)));
    }
    let c = cmp_named(name)?;
    Some(Answer::Truth(cmp(c, w, x, y)))
}
