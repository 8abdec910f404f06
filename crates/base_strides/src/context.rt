//! The stops of widening.

ghost use Rattle.std.specs.Prelude.{◌≡◌, ◌≤◌, [], length};
ghost use Rattle.base_strides.specs.Meaning.{heeded};

use base_trait::Context;
use std::alloc::{AllocError as NoMemory, Global};
use std::marker::Model;

/// Numbers at which a widened end stops first, in any order: at most 64.
#[derive(Drop)]
pub struct Stops {
    stops: Vec<u64>,
}

impl Model for Stops {
    ghost use Rattle.std.specs.Prelude.{ℕ, List, ◌≤◌, length};

    ghost Value = { List ℕ };

    ghost view = { λ c. c.stops.items };

    ghost invariant = { λ c. length c.stops.items ≤ 64 };
}

impl Stops {
    /// No stops: an end that is passed goes to 0, or to the greatest number, at once.
    pub fn none(alloc: Global) -> Stops
        ensures { result ≡ [] }
    {
        Stops {
            stops: Vec::new(alloc),
        }
    }

    /// The first 64 of these numbers.
    pub fn new(stops: Vec<u64>) -> Stops
        ensures { result ≡ heeded stops.items }
    {
        let mut stops = stops;
        stops.truncate(64);
        Stops { stops }
    }

    /// The stops, at most 64.
    pub fn stops(&self) -> &[u64]
        ensures value { result.now ≡ self.now }
        ensures few { length result.now ≤ 64 }
        ensures heeded { result.now ≡ heeded self.now }
    {
        self.stops.as_slice()
    }
}

impl Context for Stops {
    /// The same stops once more.
    fn copy(alloc: Global, ctx: &Stops) -> Result<Stops, NoMemory> {
        let mut stops = Vec::new(alloc);
        for stop in &ctx.stops {
            stops.push(*stop)?;
        }
        Ok(Stops { stops })
    }
}
