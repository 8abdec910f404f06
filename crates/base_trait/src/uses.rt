//! Definitions and uses of cells (reaching definitions, as in Aho, Lam, Sethi and Ullman,
//! "Compilers", section 9.2).

ghost use Rattle.std.specs.Prelude.{◌≡◌, ◌++◌, [], ◌∷◌, OnOk, OnErr};
ghost use Rattle.base_trait.specs.Stamps.{is_before, same_stamp};
ghost use Rattle.base_trait.specs.Uses.{uses_of};

use std::alloc::{AllocError as NoMemory, Global};

/// Where the value of a cell came from: the state at the entry, or the instruction at an address.
#[derive(Clone, Copy, Debug, PartialEq, Eq, PartialOrd, Ord, Hash)]
pub enum Stamp {
    Entry,
    At(u32),
}

impl Stamp {
    /// Whether both are one stamp.
    pub fn is_same(self, other: Stamp) -> bool
        ensures { result ≡ same_stamp self other }
    {
        match (self, other) {
            (Stamp::Entry, Stamp::Entry) => true,
            (Stamp::At(x), Stamp::At(y)) => x == y,
            _ => false,
        }
    }

    /// Whether this stamp is listed before the other: the entry first, then addresses ascending.
    pub fn is_before(self, other: Stamp) -> bool
        ensures { result ≡ is_before self other }
    {
        match (self, other) {
            (Stamp::Entry, Stamp::At(_y)) => true,
            (Stamp::At(x), Stamp::At(y)) => x < y,
            _ => false,
        }
    }
}

/// An instruction's read of a map: the map's number, the key, or none where it may be any of several,
/// and the stamps that the cell may have.
#[derive(Debug, Drop)]
pub struct Use {
    pub map: u32,
    pub key: Option<u64>,
    pub from: Vec<Stamp>,
}

/// The reads so far, in their order.
#[derive(Debug, Drop)]
pub struct Log {
    pub uses: Vec<Use>,
}

impl Log {
    /// A log of no reads.
    pub fn new(alloc: Global) -> Log
        ensures { uses_of result ≡ [] }
    {
        Log {
            uses: Vec::new(alloc),
        }
    }

    /// Adds a use at the end. Where memory runs out the log stays as it was.
    pub fn record(&mut self, map: u32, key: Option<u64>, from: Vec<Stamp>) -> Result<(), NoMemory>
        ensures value { OnOk result (uses_of self.new ≡ uses_of self.old ++ (record { of_map = map; key = key; stamps = from.items }) ∷ []) }
        ensures error { OnErr result (uses_of self.new ≡ uses_of self.old) }
    {
        self.uses.push(Use { map, key, from })?;
        Ok(())
    }
}
