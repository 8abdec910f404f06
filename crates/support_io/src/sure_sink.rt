//! A sink in memory that does not fail.

ghost use Rattle.std.specs.Prelude.{◌≡◌, ◌+◌, ◌<◌, ◌≤◌, [], length, min, take, IfOk, OnOk, IsTrue};
ghost use Rattle.support_io.specs.Append.{spare_of};
ghost use Rattle.support_io.specs.Faults.{RoseByOne};
ghost use Rattle.support_io.specs.SureSink.{buffer_of, state_of};
ghost use Rattle.support_io.specs.SinkState.{SinkKept, Appends, taken};

use crate::append::append_within;
use crate::{Failed, Sink};
use std::alloc::{AllocError, Global};

/// How many bytes the sink has room for.
const CAPACITY: usize = 67_108_864;

/// A sink in memory, with room for 67,108,864 bytes. A piece that fits is taken whole, and of one
/// past that a part is taken.
#[derive(Drop)]
pub struct SureSink {
    bytes: Vec<u8>,
    faults: u64,
}

impl SureSink {
    /// An empty sink.
    pub fn new(alloc: Global) -> Result<SureSink, AllocError>
        ensures tells { IfOk result (λ sink. IsTrue (⟦<SureSink as Sink>⟧.state sink).tells) }
        ensures written { IfOk result (λ sink. (⟦<SureSink as Sink>⟧.state sink).written ≡ []) }
        ensures room { IfOk result (λ sink. (⟦<SureSink as Sink>⟧.state sink).room ≡ 67_108_864) }
        ensures faults { IfOk result (λ sink. (⟦<SureSink as Sink>⟧.state sink).faults ≡ 0) }
    {
        Ok(SureSink {
            bytes: Vec::with_capacity(alloc, CAPACITY)?,
            faults: 0,
        })
    }

    /// The bytes written so far.
    pub fn bytes(&self) -> &[u8]
        ensures { result.now ≡ (⟦<SureSink as Sink>⟧.state self.now).written }
    {
        self.bytes.as_slice()
    }
}

impl Sink for SureSink {
    ghost state = { state_of };

    fn write(&mut self, bytes: &[u8]) -> Result<usize, Failed>
        // It takes all that it has memory for.
        ensures count { result ≡ Ok (min (length bytes.now) (spare_of (buffer_of self.old))) }
        ensures written { Appends (state_of self.old) (state_of self.new) (take (taken result) bytes.now) }
        ensures spare { spare_of (buffer_of self.old) ≤ spare_of (buffer_of self.new) + taken result }

        // A fault is where it takes none of some bytes; elsewhere none is counted.
        ensures none_taken { 0 < length bytes.now → result ≡ Ok 0
            → RoseByOne (state_of self.old).faults (state_of self.new).faults }
        ensures some_taken { 0 < taken result → (state_of self.new).faults ≡ (state_of self.old).faults }
        ensures no_bytes { length bytes.now ≡ 0
            → OnOk result ((state_of self.new).faults ≡ (state_of self.old).faults) }

        ensures kept { SinkKept (state_of self.old) (state_of self.new) }
    {
        let count = append_within(&mut self.bytes, bytes);
        if count == 0 && !bytes.is_empty() {
            self.faults = self.faults.saturating_add(1);
        }
        Ok(count)
    }
}
