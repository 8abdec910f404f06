//! Maps as trees of cells.

ghost use Rattle.std.specs.Prelude.{◌≡◌, ◌<◌, [], Some, length, map, slice_get, slice_index, IfOk};
ghost use Rattle.word_operations.specs.Width.{IsWidth};
ghost use Rattle.base_trait.specs.Lists.{IsAscending};
ghost use Rattle.abstract_cell_tree.specs.Entries.{listed_at};
ghost use Rattle.abstract_map_laws.specs.Calls.{folded};
ghost use Rattle.abstract_map_laws.specs.Keys.{has_key};
ghost use Rattle.abstract_map_laws.specs.Maps.{Fits, cell, keys};
ghost use Rattle.abstract_map.specs.Unfolded.{FitsUnfolded};

use super::cells::{CellOf, copy_cell};
use abstract_cell_tree::{Branch, Tree};
use abstract_map_laws::AbstractCell;
use base_trait::Base;
use std::alloc::{AllocError as NoMemory, Global};
use std::marker::Model;

/// Listed cells, ascending by their keys, and a rest for every other key. It describes each concrete map whose cell at
/// each key the listed cell describes, or else the rest.
#[derive_where(Debug)]
pub struct AbstractMap<B: Base> {
    pub(crate) width: u32,
    pub(crate) rest: CellOf<B>,
    pub(crate) cells: Tree<CellOf<B>>,
}

/// Written out, so that what lets a map go stands once for each base, and not once more in each crate where one is let go.
impl<B: Base> Drop for AbstractMap<B> {
    fn drop(self) {
        self.let_go();
    }
}

impl<B: Base> AbstractMap<B> {
    /// Lets go what it holds.
    fn let_go(self) {
        let AbstractMap {
            width: _width,
            rest: _rest,
            cells: _cells,
        } = self;
    }
}

impl<B: Base> Model for AbstractMap<B> {
    ghost use Rattle.abstract_map_laws.specs.Maps.{Map};

    ghost Value = { Map B.Word B.Note };

    ghost view = { λ m. record { width = m.width; rest = m.rest; cells = m.cells } };
}

impl<B: Base> AbstractMap<B> {
    /// The map that lists no cell: it describes each concrete map all of whose cells the word and the note describe.
    ///
    /// The width of its words is counted in bits.
    pub fn new(
        alloc: Global,
        ctx: &B::Ctx,
        w: u32,
        rest: B::Word,
        note: B::Note,
    ) -> Result<AbstractMap<B>, NoMemory>
        requires width { IsWidth w }
        requires word { B.algebra.words.fits ctx.now w rest }
        ensures value { IfOk result (λ r. r ≡ record { width = w; rest = record { word = rest; note = note }; cells = [] }) }
        ensures fits { IfOk result (λ r. Fits B.algebra ctx.now B.CAP r) }
    {
        Ok(AbstractMap {
            width: w,
            rest: AbstractCell { word: rest, note },
            cells: Tree::new(),
        })
    }

    /// The map of a rest and of listed cells, as they are.
    pub(crate) fn of_parts(
        alloc: Global,
        width: u32,
        rest: CellOf<B>,
        cells: Vec<(u64, CellOf<B>)>,
    ) -> Result<AbstractMap<B>, NoMemory>
        requires order { IsAscending (map (λ e. e.0) cells.items) }
        ensures value { IfOk result (λ r. r ≡ record { width = width; rest = rest; cells = cells.items }) }
    {
        match Tree::of_ascending(alloc, cells) {
            Ok(cells) => Ok(AbstractMap { width, rest, cells }),
            Err(error) => {
                drop(rest);
                Err(error)
            }
        }
    }

    /// The map of these listed cells and the rest, keys ascending below 2^32. Past what the base may list, the cell of the
    /// greatest key goes into the rest.
    ///
    /// The width of its words is counted in bits.
    pub fn of_cells(
        alloc: Global,
        ctx: &B::Ctx,
        w: u32,
        rest: AbstractCell<B::Word, B::Note>,
        cells: Vec<(u64, AbstractCell<B::Word, B::Note>)>,
    ) -> Result<AbstractMap<B>, NoMemory>
        requires map { FitsUnfolded B.algebra ctx.now (record { width = w; rest = rest; cells = cells.items }) }
        ensures value { IfOk result (λ r. r ≡ folded B.algebra ctx.now B.CAP (record { width = w; rest = rest; cells = cells.items })) }
        ensures fits { IfOk result (λ r. Fits B.algebra ctx.now B.CAP r) }
    {
        let map = AbstractMap::of_parts(alloc, w, rest, cells)?;
        map.folded(alloc, ctx)
    }

    /// The width of its words, in bits.
    pub fn width(&self) -> u32
        ensures { result ≡ self.now.width }
    {
        self.width
    }

    /// How many cells are listed.
    pub fn listed(&self) -> u64
        ensures { result ≡ length self.now.cells }
    {
        self.cells().len()
    }

    /// Whether a cell is listed at a key.
    pub fn lists(&self, key: u64) -> bool
        requires order { IsAscending (keys self.now) }
        ensures { result ≡ has_key (keys self.now) key }
    {
        self.cells().get(key).is_some()
    }

    /// The listed key at a place, counted from 0. Keys ascend.
    pub fn key_at(&self, place: u64) -> u64
        requires { place < length self.now.cells }
        ensures { slice_get (keys self.now) place ≡ Some result }
    {
        self.cells().at(place).0
    }

    /// The listed cell at a place: it describes what a concrete map has at the key of that place.
    pub fn cell_at(&self, place: u64) -> (&B::Word, &B::Note)
        requires { place < length self.now.cells }
        ensures { slice_get self.now.cells place ≡ Some (slice_index (keys self.now) place, record { word = result.0.now; note = result.1.now }) }
    {
        let cell = self.cells().at(place).1;
        (&cell.word, &cell.note)
    }

    /// The cell at a key, listed or not: it describes what a concrete map has there.
    pub fn cell_of(&self, key: u64) -> (&B::Word, &B::Note)
        requires order { IsAscending (keys self.now) }
        ensures { cell self.now key ≡ record { word = result.0.now; note = result.1.now } }
    {
        let cell = self.cell(key);
        (&cell.word, &cell.note)
    }

    /// The rest: it describes what a concrete map has at each key that is not listed.
    pub fn rest(&self) -> (&B::Word, &B::Note)
        ensures { self.now.rest ≡ record { word = result.0.now; note = result.1.now } }
    {
        (&self.rest.word, &self.rest.note)
    }

    /// The listed cells, ascending by their keys.
    pub(crate) fn cells(&self) -> &Tree<CellOf<B>>
        ensures value { result.now ≡ self.now.cells }
    {
        &self.cells
    }

    /// The listed cells, as a tree to walk over.
    pub(crate) fn root(&self) -> &Branch<CellOf<B>>
        ensures value { result.now ≡ self.now.cells }
    {
        self.cells.root()
    }

    /// The cell at a key, of which the cells of a part of it know as much.
    pub(crate) fn cell_near<'a>(&'a self, cells: &'a Branch<CellOf<B>>, key: u64) -> &'a CellOf<B>
        requires near { listed_at key cells.now ≡ listed_at key self.now.cells }
        ensures value { result.now ≡ cell self.now key }
    {
        match cells.get(key) {
            Some(cell) => cell,
            None => &self.rest,
        }
    }

    /// The cell at a key.
    pub(crate) fn cell(&self, key: u64) -> &CellOf<B>
        requires order { IsAscending (keys self.now) }
        ensures value { result.now ≡ cell self.now key }
    {
        match self.cells().get(key) {
            Some(cell) => cell,
            None => &self.rest,
        }
    }

    /// The same map once more. It describes the same concrete maps.
    pub fn copy(&self, alloc: Global, ctx: &B::Ctx) -> Result<AbstractMap<B>, NoMemory>
        ensures { IfOk result (λ r. r ≡ self.now) }
    {
        let width = self.width;
        let rest = copy_cell::<B>(alloc, ctx, &self.rest)?;
        match self.cells.copy() {
            Ok(cells) => Ok(AbstractMap { width, rest, cells }),
            Err(error) => {
                drop(rest);
                Err(error)
            }
        }
    }
}
