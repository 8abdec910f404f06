//! What is left of words.

ghost use Rattle.word_operations.specs.Width.{IsWidth};

use base_bits::Bits;
use base_concrete::Concrete;
use base_cuts::CutBase;
use base_defuse::DefUse;
use base_interval::Interval;
use base_kset::KSet;
use base_product::{Pair, Paired};
use base_strides::{Stops, Strides};
use std::alloc::{AllocError as NoMemory, Global};
use test_case_lines::{Read, Unread, number, parts, width, word};

/// What the case of a line gives.
pub(crate) fn found(alloc: Global, line: &str) -> Result<String, NoMemory> {
    match case_of_base(alloc, line) {
        Ok(text) => Ok(text),
        Err(Unread::No) => format!(in alloc; "no case"),
        Err(Unread::NoMemory) => Err(NoMemory),
    }
}

/// What the case of a base gives, if it is one.
fn case_of_base(alloc: Global, line: &str) -> Read<String> {
    let (base, case) = parts(line);
    match base {
        "set2" => left::<KSet<2>>(alloc, &(), case),
        "set16" => left::<KSet<16>>(alloc, &(), case),
        "defuse" => left::<DefUse>(alloc, &(), case),
        "interval" => left::<Interval>(alloc, &(), case),
        "strides" => left::<Strides>(alloc, &Stops::none(alloc), case),
        "bits" => left::<Bits>(alloc, &(), case),
        "number" => left::<Concrete>(alloc, &(), case),
        "set2&interval" => left::<Paired<KSet<2>, Interval>>(alloc, &Pair((), ()), case),
        _ => Err(Unread::No),
    }
}

/// What is left of the word of a case.
fn left<B: CutBase>(alloc: Global, ctx: &B::Ctx, case: &str) -> Read<String> {
    let (bits, rest) = parts(case);
    let (text, rest) = parts(rest);
    let (low, high) = parts(rest);
    let (Some(w), Some(low), Some(high)) = (width(bits), number(low), number(high)) else {
        return Err(Unread::No);
    };
    let x = word::<B>(alloc, ctx, w, text)?;
    match B::meet(alloc, ctx, w, &x, low, high)? {
        Some(left) => Ok(told::<B>(alloc, ctx, w, &left)?),
        None => Ok(format!(in alloc; "nothing")?),
    }
}

/// The numbers of a word, where they are at most 64.
fn told<B: CutBase>(alloc: Global, ctx: &B::Ctx, w: u32, x: &B::Word) -> Result<String, NoMemory>
    requires width { IsWidth w }
    requires word { B.algebra.words.fits ctx.now w x.now }
{
    let mut text = String::new(alloc);
    match B::members(alloc, ctx, w, x, 64)? {
        Some(numbers) => push_numbers(&mut text, &numbers)?,
        None => text.push_str("many")?,
    }
    Ok(text)
}

fn push_numbers(text: &mut String, numbers: &[u64]) -> Result<(), NoMemory> {
    let mut mark = "";
    for n in numbers {
        write!(text, "{mark}{n:x}")?;
        mark = ",";
    }
    Ok(())
}
