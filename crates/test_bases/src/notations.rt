//! Words of the bases as text.

ghost use Rattle.std.specs.Prelude.{◌≡◌, IfOk, Ok};

use base_concrete::Concrete;
use base_defuse::DefUse;
use base_interval::{Interval, Range};
use base_kset::{KSet, Set};
use base_product::{Pair, Paired};
use base_trait::Base;
use std::alloc::{AllocError as NoMemory, Global};
use std::marker::PhantomData;
use test_case_lines::{Notation, Read, Unread, both, word};

/// A set is written by its numbers, in hex: `{1,a}`, or `any`.
pub(crate) struct Sets<const K: usize>;

/// A number is written as a set of one.
pub(crate) struct Numbers;

/// Words are those of sets of at most one number.
pub(crate) struct Definitions;

/// An interval is written by its ends: `1..a`.
pub(crate) struct Intervals;

/// A word of a pair is written by its parts: `{1}&1..a`.
pub(crate) struct Pairs<A: Notation, B: Notation> {
    parts: PhantomData<(A, B)>,
}

impl<const K: usize> Notation for Sets<K> {
    type Of = KSet<K>;

    fn word(alloc: Global, ctx: &(), w: u32, text: &str) -> Read<Set<K>> {
        word::<KSet<K>>(alloc, ctx, w, text)
    }

    fn text(alloc: Global, _w: u32, x: &Set<K>) -> Result<String, NoMemory> {
        set_text(alloc, x)
    }
}

fn set_text<const K: usize>(alloc: Global, x: &Set<K>) -> Result<String, NoMemory> {
    if x.is_any() {
        return format!(in alloc; "any");
    }
    let mut text = String::new(alloc);
    let mut mark = "{";
    for n in x.items() {
        write!(text, "{mark}{n:x}")?;
        mark = ",";
    }
    text.push('}')?;
    Ok(text)
}

impl Notation for Numbers {
    type Of = Concrete;

    fn word(alloc: Global, ctx: &(), w: u32, text: &str) -> Read<u64> {
        word::<Concrete>(alloc, ctx, w, text)
    }

    fn text(alloc: Global, _w: u32, x: &u64) -> Result<String, NoMemory> {
        format!(in alloc; "{{{x:x}}}")
    }
}

impl Notation for Definitions {
    type Of = DefUse;

    fn word(alloc: Global, ctx: &(), w: u32, text: &str) -> Read<Set<1>> {
        word::<DefUse>(alloc, ctx, w, text)
    }

    fn text(alloc: Global, _w: u32, x: &Set<1>) -> Result<String, NoMemory> {
        set_text(alloc, x)
    }
}

impl Notation for Intervals {
    type Of = Interval;

    fn word(alloc: Global, ctx: &(), w: u32, text: &str) -> Read<Range> {
        word::<Interval>(alloc, ctx, w, text)
    }

    fn text(alloc: Global, _w: u32, x: &Range) -> Result<String, NoMemory> {
        format!(in alloc; "{:x}..{:x}", x.lo, x.hi)
    }
}

impl<A: Notation, B: Notation> Notation for Pairs<A, B> {
    type Of = Paired<A::Of, B::Of>;

    fn word(
        alloc: Global,
        ctx: &Pair<<A::Of as Base>::Ctx, <B::Of as Base>::Ctx>,
        w: u32,
        text: &str,
    ) -> Read<Pair<<A::Of as Base>::Word, <B::Of as Base>::Word>> {
        let Some((first, second)) = text.split_once('&') else {
            return Err(Unread::No);
        };
        let x = A::word(alloc, &ctx.0, w, first)?;
        word_pair(x, B::word(alloc, &ctx.1, w, second))
    }

    fn text(
        alloc: Global,
        w: u32,
        x: &Pair<<A::Of as Base>::Word, <B::Of as Base>::Word>,
    ) -> Result<String, NoMemory> {
        beside(A::text(alloc, w, &x.0)?, B::text(alloc, w, &x.1))
    }
}

/// The first word beside the second, if that is one. The first is let go here where it is none.
fn word_pair<V: Drop, W: Drop>(first: V, second: Read<W>) -> Read<Pair<V, W>>
    ensures { IfOk result (λ r. (r.0 ≡ first) × (second ≡ Ok r.1)) }
{
    Ok(Pair(first, second?))
}

/// The second text behind the first.
fn beside(first: String, second: Result<String, NoMemory>) -> Result<String, NoMemory> {
    match second {
        Ok(second) => {
            let mut text = first;
            write!(text, "&{}", second.as_str())?;
            Ok(text)
        }
        Err(error) => Err(error),
    }
}
