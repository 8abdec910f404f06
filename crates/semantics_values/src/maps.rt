//! Maps: access and update by a key.

ghost use Rattle.std.specs.Prelude.{◌≡◌, ◌<◌, ◌≤◌, IfOk, IfErr, OnErr, OnOk, length, set};
ghost use Rattle.std.specs.List.{insert};
ghost use Rattle.semantics_values.specs.Values.{cell_at, put_cell};
ghost use Rattle.semantics_values.specs.Views.{map_val};
ghost use Rattle.semantics_values.specs.declared.value.Cell.{Cell};

use crate::value::{Cell, MapValue};
use std::alloc::{AllocError, Global};

impl MapValue {
    /// The cell at a key: the listed one, or the rest.
    pub fn cell(&self, key: u64) -> Cell
        ensures { result ≡ cell_at self.now.rest self.now.cells.items key }
    {
        for listed in &self.cells {
            if listed.0 == key {
                return listed.1;
            }
        }
        self.rest
    }

    /// Puts a cell at a key. Where memory runs out the map stays as it was.
    pub fn put(&mut self, key: u64, cell: Cell) -> Result<(), AllocError>
        ensures cells { OnOk result (self.new.cells.items ≡ put_cell key cell self.old.cells.items) }
        ensures rest { OnOk result (self.new.rest ≡ self.old.rest) }
        ensures map { OnOk result (self.new.map ≡ self.old.map) }
        ensures error { OnErr result (map_val self.new ≡ map_val self.old) }
    {
        match place_of(&self.cells, key) {
            Ok(place) => self.cells[place] = (key, cell),
            Err(place) => self.cells.insert(place, (key, cell))?,
        }
        Ok(())
    }

    /// The same map again.
    pub fn copy(&self, alloc: Global) -> Result<MapValue, AllocError>
        ensures { IfOk result (λ r. map_val r ≡ map_val self.now) }
    {
        Ok(MapValue {
            map: self.map,
            rest: self.rest,
            cells: Vec::from_slice(alloc, &self.cells)?,
        })
    }
}

/// Where a key is listed, or where it is to be inserted.
fn place_of(cells: &[(u64, Cell)], key: u64) -> Result<usize, usize>
    ensures listed { IfOk result (λ i. (i < length cells.now) × ((cell : Cell) → set cells.now i (key, cell) ≡ put_cell key cell cells.now)) }
    ensures free { IfErr result (λ i. (i ≤ length cells.now) × ((cell : Cell) → insert cells.now i (key, cell) ≡ put_cell key cell cells.now)) }
{
    for i in 0..cells.len() {
        if cells[i].0 == key {
            return Ok(i);
        }
        if key < cells[i].0 {
            return Err(i);
        }
    }
    Err(cells.len())
}
