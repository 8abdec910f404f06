//! Calls on cells, part by part.

ghost use Rattle.std.specs.Prelude.{◌≡◌, IfOk, if◌then◌else◌};
ghost use Rattle.word_operations.specs.Width.{IsWidth};
ghost use Rattle.abstract_map_laws.specs.Cells.{CellFits, absorbs_cell, join_cells, widen_cells};

use abstract_map_laws::AbstractCell;
use base_trait::Base;
use std::alloc::{AllocError as NoMemory, Global};

/// A cell of the words and notes of a base.
pub(crate) type CellOf<B> = AbstractCell<<B as Base>::Word, <B as Base>::Note>;

/// The cell of a word and a note, which are copied.
pub(crate) fn cell_of<B: Base>(
    alloc: Global,
    ctx: &B::Ctx,
    word: &B::Word,
    note: &B::Note,
) -> Result<CellOf<B>, NoMemory>
    ensures value { IfOk result (λ r. r ≡ record { word = word.now; note = note.now }) }
{
    Ok(AbstractCell {
        word: B::copy(alloc, ctx, word)?,
        note: B::copy_note(alloc, note)?,
    })
}

/// The same cell once more.
pub(crate) fn copy_cell<B: Base>(
    alloc: Global,
    ctx: &B::Ctx,
    cell: &CellOf<B>,
) -> Result<CellOf<B>, NoMemory>
    ensures value { IfOk result (λ r. r ≡ cell.now) }
{
    cell_of::<B>(alloc, ctx, &cell.word, &cell.note)
}

/// A cell that describes what either does.
pub(crate) fn join_cell<B: Base>(
    alloc: Global,
    ctx: &B::Ctx,
    w: u32,
    x: &CellOf<B>,
    y: &CellOf<B>,
) -> Result<CellOf<B>, NoMemory>
    requires width { IsWidth w }
    requires left { CellFits B.algebra ctx.now w x.now }
    requires right { CellFits B.algebra ctx.now w y.now }
    ensures value { IfOk result (λ r. r ≡ join_cells B.algebra ctx.now w x.now y.now) }
    ensures fits { IfOk result (λ r. CellFits B.algebra ctx.now w r) }
{
    Ok(AbstractCell {
        word: B::join(alloc, ctx, w, &x.word, &y.word)?,
        note: B::join_note(alloc, &x.note, &y.note)?,
    })
}

/// The old cell, which is let go, joined with the new one.
pub(crate) fn joined_into<B: Base>(
    alloc: Global,
    ctx: &B::Ctx,
    w: u32,
    old: CellOf<B>,
    new: &CellOf<B>,
) -> Result<CellOf<B>, NoMemory>
    requires width { IsWidth w }
    requires old { CellFits B.algebra ctx.now w old }
    requires new { CellFits B.algebra ctx.now w new.now }
    ensures value { IfOk result (λ r. r ≡ join_cells B.algebra ctx.now w old new.now) }
    ensures fits { IfOk result (λ r. CellFits B.algebra ctx.now w r) }
{
    join_cell::<B>(alloc, ctx, w, &old, new)
}

/// The old cell joined with the new one, or as it was.
pub(crate) fn joined_if<B: Base>(
    alloc: Global,
    ctx: &B::Ctx,
    w: u32,
    joins: bool,
    old: CellOf<B>,
    new: &CellOf<B>,
) -> Result<CellOf<B>, NoMemory>
    requires width { IsWidth w }
    requires old { CellFits B.algebra ctx.now w old }
    requires new { CellFits B.algebra ctx.now w new.now }
    ensures value { IfOk result (λ r. r ≡ (if joins then join_cells B.algebra ctx.now w old new.now else old)) }
    ensures fits { IfOk result (λ r. CellFits B.algebra ctx.now w r) }
{
    if joins {
        joined_into::<B>(alloc, ctx, w, old, new)
    } else {
        Ok(old)
    }
}

/// A cell that describes what either does, so that no chain grows for ever.
pub(crate) fn widen_cell<B: Base>(
    alloc: Global,
    ctx: &B::Ctx,
    w: u32,
    old: &CellOf<B>,
    new: &CellOf<B>,
) -> Result<CellOf<B>, NoMemory>
    requires width { IsWidth w }
    requires left { CellFits B.algebra ctx.now w old.now }
    requires right { CellFits B.algebra ctx.now w new.now }
    ensures value { IfOk result (λ r. r ≡ widen_cells B.algebra ctx.now w old.now new.now) }
    ensures fits { IfOk result (λ r. CellFits B.algebra ctx.now w r) }
{
    Ok(AbstractCell {
        word: B::widen(alloc, ctx, w, &old.word, &new.word)?,
        note: B::widen_note(alloc, &old.note, &new.note)?,
    })
}

/// Whether `old` surely describes all that `new` does.
pub(crate) fn absorbs<B: Base>(ctx: &B::Ctx, w: u32, old: &CellOf<B>, new: &CellOf<B>) -> bool
    requires width { IsWidth w }
    requires left { CellFits B.algebra ctx.now w old.now }
    requires right { CellFits B.algebra ctx.now w new.now }
    ensures value { result ≡ absorbs_cell B.algebra ctx.now w old.now new.now }
{
    B::absorbs(ctx, w, &old.word, &new.word) && B::absorbs_note(&old.note, &new.note)
}
