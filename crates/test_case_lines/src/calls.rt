//! What a call gives.

ghost use Rattle.std.specs.Prelude.{◌≡◌, ◌<◌, ◌≤◌, ◌^◌};
ghost use Rattle.word_operations.specs.Width.{IsWidth};

use super::names::{cmp_named, op1_named, op2_named};
use super::notation::Notation;
use super::numbers::{is_word, number, width};
use super::read::Unread;
use base_trait::Base;
use std::alloc::{AllocError as NoMemory, Global};
use word_operations::WordComparison;

/// What the call of a line gives.
pub fn answer<N: Notation>(
    alloc: Global,
    ctx: &<N::Of as Base>::Ctx,
    line: &str,
) -> Result<String, NoMemory> {
    let (name, rest) = parts(line);
    let (bits, rest) = parts(rest);
    match width(bits) {
        Some(w) => made::<N>(alloc, ctx, name, w, rest),
        None => no_case(alloc),
    }
}

/// The text up to the first space, and what is behind it.
pub fn parts(text: &str) -> (&str, &str) {
    match text.split_once(' ') {
        Some(parts) => parts,
        None => (text, ""),
    }
}

fn no_case(alloc: Global) -> Result<String, NoMemory> {
    format!(in alloc; "no case")
}

/// What a call gives that takes numbers or nothing.
fn made<N: Notation>(
    alloc: Global,
    ctx: &<N::Of as Base>::Ctx,
    name: &str,
    w: u32,
    rest: &str,
) -> Result<String, NoMemory>
    requires { IsWidth w }
{
    let (first, second) = parts(rest);
    match (name, number(first), number(second)) {
        ("Any", _, _) => N::text(alloc, w, &N::Of::any(alloc, ctx, w)?),
        ("Constant", Some(v), _) if is_word(w, v) => {
            N::text(alloc, w, &N::Of::constant(alloc, ctx, w, v)?)
        }
        ("Range", Some(low), Some(high)) if low <= high && is_word(w, high) => {
            N::text(alloc, w, &N::Of::range(alloc, ctx, w, low, high)?)
        }
        ("CopiedRange", Some(low), Some(high)) if low <= high && is_word(w, high) => {
            in_copy::<N>(alloc, ctx, w, low, high)
        }
        _ => match N::word(alloc, ctx, w, first) {
            Ok(x) => called::<N>(alloc, ctx, name, w, &x, second),
            Err(Unread::No) => no_case(alloc),
            Err(Unread::NoMemory) => Err(NoMemory),
        },
    }
}

/// What a range gives in a copy of the context.
fn in_copy<N: Notation>(
    alloc: Global,
    ctx: &<N::Of as Base>::Ctx,
    w: u32,
    low: u64,
    high: u64,
) -> Result<String, NoMemory>
    requires width { IsWidth w }
    requires order { low ≤ high }
    requires number { high < 2 ^ w }
{
    let other = N::Of::copy_ctx(alloc, ctx)?;
    N::text(alloc, w, &N::Of::range(alloc, &other, w, low, high)?)
}

/// What a call gives that takes a word.
fn called<N: Notation>(
    alloc: Global,
    ctx: &<N::Of as Base>::Ctx,
    name: &str,
    w: u32,
    x: &<N::Of as Base>::Word,
    rest: &str,
) -> Result<String, NoMemory>
    requires width { IsWidth w }
    requires word { N.Of.algebra.words.fits ctx.now w x.now }
{
    if let Some(op) = op1_named(name) {
        return N::text(alloc, w, &N::Of::op1(alloc, ctx, op, w, x)?);
    }
    if matches!(name, "Zext" | "Sext" | "Trunc") {
        return cast::<N>(alloc, ctx, name, w, x, rest);
    }
    match N::word(alloc, ctx, w, rest) {
        Ok(y) => of_two::<N>(alloc, ctx, name, w, x, &y),
        Err(Unread::No) => read::<N>(alloc, ctx, name, w, x, rest),
        Err(Unread::NoMemory) => Err(NoMemory),
    }
}

/// What a cast to the width of the text gives.
fn cast<N: Notation>(
    alloc: Global,
    ctx: &<N::Of as Base>::Ctx,
    name: &str,
    from: u32,
    x: &<N::Of as Base>::Word,
    rest: &str,
) -> Result<String, NoMemory>
    requires width { IsWidth from }
    requires word { N.Of.algebra.words.fits ctx.now from x.now }
{
    let Some(to) = width(rest) else {
        return no_case(alloc);
    };
    if name == "Trunc" && to <= from {
        return N::text(alloc, to, &N::Of::trunc(alloc, ctx, from, to, x)?);
    }
    if to < from {
        return no_case(alloc);
    }
    match name {
        "Zext" => N::text(alloc, to, &N::Of::zext(alloc, ctx, from, to, x)?),
        "Sext" => N::text(alloc, to, &N::Of::sext(alloc, ctx, from, to, x)?),
        _ => no_case(alloc),
    }
}

/// What a call on two words gives, and whether they are one word.
fn of_two<N: Notation>(
    alloc: Global,
    ctx: &<N::Of as Base>::Ctx,
    name: &str,
    w: u32,
    x: &<N::Of as Base>::Word,
    y: &<N::Of as Base>::Word,
) -> Result<String, NoMemory>
    requires width { IsWidth w }
    requires left { N.Of.algebra.words.fits ctx.now w x.now }
    requires right { N.Of.algebra.words.fits ctx.now w y.now }
{
    if let Some(op) = op2_named(name) {
        return N::text(alloc, w, &N::Of::op2(alloc, ctx, op, w, x, y)?);
    }
    if let Some(c) = cmp_named(name) {
        return compared::<N>(alloc, ctx, c, w, x, y);
    }
    match name {
        "Join" => N::text(alloc, w, &N::Of::join(alloc, ctx, w, x, y)?),
        "Widen" => N::text(alloc, w, &N::Of::widen(alloc, ctx, w, x, y)?),
        "Absorbs" => format!(in alloc; "{}", N::Of::absorbs(ctx, w, x, y)),
        "Same" => format!(in alloc; "{}", *x == *y),
        _ => no_case(alloc),
    }
}

/// The truth values that a comparison may have.
fn compared<N: Notation>(
    alloc: Global,
    ctx: &<N::Of as Base>::Ctx,
    c: WordComparison,
    w: u32,
    x: &<N::Of as Base>::Word,
    y: &<N::Of as Base>::Word,
) -> Result<String, NoMemory>
    requires width { IsWidth w }
    requires left { N.Of.algebra.words.fits ctx.now w x.now }
    requires right { N.Of.algebra.words.fits ctx.now w y.now }
{
    let found = N::Of::cmp(ctx, c, w, x, y);
    format!(in alloc;
        "{}",
        match (found.may_true, found.may_false) {
            (true, true) => "true or false",
            (true, false) => "true",
            (false, true) => "false",
            (false, false) => "neither",
        }
    )
}

/// What is known of a word.
fn read<N: Notation>(
    alloc: Global,
    ctx: &<N::Of as Base>::Ctx,
    name: &str,
    w: u32,
    x: &<N::Of as Base>::Word,
    rest: &str,
) -> Result<String, NoMemory>
    requires width { IsWidth w }
    requires word { N.Of.algebra.words.fits ctx.now w x.now }
{
    match (name, number(rest), rest.parse::<u32>()) {
        ("Rank", _, _) => format!(in alloc; "{}", N::Of::rank(ctx, w, x)),
        ("Exact", _, _) => format!(in alloc; "{:?}", N::Of::exact(ctx, w, x)),
        ("Copy", _, _) => N::text(alloc, w, &N::Of::copy(alloc, ctx, x)?),
        ("May", Some(k), _) => format!(in alloc; "{}", N::Of::may(ctx, w, x, k)),
        ("Members", _, Ok(limit)) => {
            format!(in alloc; "{:?}", N::Of::members(alloc, ctx, w, x, limit)?)
        }
        _ => no_case(alloc),
    }
}
