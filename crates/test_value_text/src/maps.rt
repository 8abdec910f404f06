//! Maps of texts.

ghost use Rattle.std.specs.Prelude.{IfOk, IfSome};
ghost use Rattle.word_operations.specs.Width.{IsWidth};
ghost use Rattle.abstract_map_laws.specs.Maps.{Fits};

use abstract_map::{AbstractMap, KeySet};
use base_trait::Base;
use std::alloc::Global;
use test_case_lines::{Read, Unread, both, note, word};

/// The word and the note of a cell: `{5}`, of the entry, or `{5} from 1000`.
fn cell<B: Base>(alloc: Global, ctx: &B::Ctx, w: u32, text: &str) -> Read<(B::Word, B::Note)>
    requires { IsWidth w }
    ensures { IfOk result (λ c. B.algebra.words.fits ctx.now w c.0) }
{
    let (text, stamps) = text.split_once(" from ").unwrap_or((text, "entry"));
    let x = word::<B>(alloc, ctx, w, text)?;
    both(x, note::<B>(alloc, stamps))
}

/// The map with a cell more: `2 {5} from 1000`, the key in decimal.
fn with_cell<B: Base>(
    alloc: Global,
    ctx: &B::Ctx,
    m: &AbstractMap<B>,
    text: &str,
) -> Read<AbstractMap<B>>
    requires { Fits B.algebra ctx.now B.CAP m.now }
    ensures { IfOk result (λ r. Fits B.algebra ctx.now B.CAP r) }
{
    let (key, text) = text.split_once(' ').unwrap_or((text, ""));
    let Ok(key) = key.parse::<u32>() else {
        return Err(Unread::No);
    };
    let (x, note) = cell::<B>(alloc, ctx, m.width(), text)?;
    Ok(m.update(alloc, ctx, &KeySet::One(u64::from(key)), &x, &note)?)
}

/// The map of words of a width: its rest, and listed cells behind it.
pub(crate) fn map<B: Base>(alloc: Global, ctx: &B::Ctx, w: u32, text: &str) -> Read<AbstractMap<B>>
    requires { IsWidth w }
    ensures { IfOk result (λ r. Fits B.algebra ctx.now B.CAP r) }
{
    let mut parts = text.split("; ");
    let (x, note) = cell::<B>(alloc, ctx, w, parts.next().unwrap_or(""))?;
    let mut m = AbstractMap::new(alloc, ctx, w, x, note)?;
    for part in parts {
        m = with_cell(alloc, ctx, &m, part)?;
    }
    Ok(m)
}
