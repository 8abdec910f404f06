//! Values, cells and states.

use base_trait::Stamp;

/// A cell of a map: a number of the map's width, and where it came from.
#[derive(Clone, Copy, Debug, PartialEq, Eq)]
pub struct Cell {
    pub v: u64,
    pub stamp: Stamp,
}

/// A map of the map type with this number: the listed keys, ascending without doubles, with their
/// cells; every other key has the rest. A key of an enumeration is its constructor's number from 0.
#[derive(Debug, Drop)]
pub struct MapValue {
    pub map: u32,
    pub rest: Cell,
    pub cells: Vec<(u64, Cell)>,
}

/// A value: a truth value, a number of w bits, a constructor with its fields, or a map.
#[derive(Debug, Drop)]
pub enum Value {
    Flag(bool),
    Word {
        w: u32,
        v: u64,
    },
    Made {
        ty: u32,
        case: u32,
        parts: Vec<Value>,
    },
    Map(MapValue),
}

/// A state of a machine: the program counter and the other fields in their order.
#[derive(Debug, Drop)]
pub struct State {
    pub pc: u32,
    pub parts: Vec<Value>,
}

/// A read of a map cell: the map's number, the key, and the stamp of the cell.
#[derive(Clone, Copy, Debug, PartialEq, Eq)]
pub struct ReadSeen {
    pub map: u32,
    pub key: u64,
    pub stamp: Stamp,
}
