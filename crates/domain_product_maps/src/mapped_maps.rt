//! The part of each cell of a map.

ghost use Rattle.std.specs.Prelude.{◌≡◌, ◌<◌, IfOk, Some, length, slice_get};
ghost use Rattle.abstract_map_laws.specs.Maps.{Fits};
ghost use Rattle.domain_product_laws.specs.Calls.{mapped_cell, mapped_cells, mapped_map};

use crate::cells::{CellOf, make_map, with_note};
use crate::keyed::with_key;
use crate::part::ProductPart;
use abstract_map::AbstractMap;
use base_trait::Base;
use std::alloc::{AllocError as NoMemory, Global};
use support_lists::pushed;

/// The part of a cell.
fn mapped_cell<P: ProductPart>(
    alloc: Global,
    ctx: &<P::To as Base>::Ctx,
    word: &<P::From as Base>::Word,
    note: &<P::From as Base>::Note,
) -> Result<CellOf<P::To>, NoMemory>
    ensures { IfOk result (λ r. r ≡ mapped_cell P.word_of P.note_of (record { word = word.now; note = note.now })) }
{
    let word = P::word(alloc, ctx, word)?;
    with_note(word, P::note(alloc, note))
}

/// The part of the listed cell at a place, with its key.
fn mapped_entry<P: ProductPart>(
    alloc: Global,
    ctx: &<P::To as Base>::Ctx,
    m: &AbstractMap<P::From>,
    place: u64,
) -> Result<(u64, CellOf<P::To>), NoMemory>
    requires listed { place < length m.now.cells }
    ensures { IfOk result (λ r. slice_get (mapped_cells P.word_of P.note_of m.now.cells) place ≡ Some r) }
{
    let (word, note) = m.cell_at(place);
    with_key(m.key_at(place), mapped_cell::<P>(alloc, ctx, word, note))
}

/// The parts of the listed cells.
fn mapped_cells<P: ProductPart>(
    alloc: Global,
    ctx: &<P::To as Base>::Ctx,
    m: &AbstractMap<P::From>,
) -> Result<Vec<(u64, CellOf<P::To>)>, NoMemory>
    ensures { IfOk result (λ r. r.items ≡ mapped_cells P.word_of P.note_of m.now.cells) }
{
    let mut cells = Vec::new(alloc);
    for place in 0..m.listed() {
        cells = pushed(cells, mapped_entry::<P>(alloc, ctx, m, place))?;
    }
    Ok(cells)
}

/// The part of each cell of a map, at the same keys.
pub fn mapped_map<P: ProductPart>(
    alloc: Global,
    ctx: &<P::To as Base>::Ctx,
    m: &AbstractMap<P::From>,
) -> Result<AbstractMap<P::To>, NoMemory>
    requires fits { Fits P.To.algebra ctx.now P.To.CAP (mapped_map P.word_of P.note_of m.now) }
    ensures { IfOk result (λ r. r ≡ mapped_map P.word_of P.note_of m.now) }
{
    let (word, note) = m.rest();
    make_map::<P::To>(
        alloc,
        ctx,
        m.width(),
        mapped_cell::<P>(alloc, ctx, word, note),
        mapped_cells::<P>(alloc, ctx, m),
    )
}
