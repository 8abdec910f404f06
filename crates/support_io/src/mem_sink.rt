//! A sink in memory that fails where it is told to.

ghost use Rattle.std.specs.Prelude.{◌≡◌, ◌↔◌, ◌+◌, ◌<◌, ◌≤◌, [], length, min, take, IfOk, OnOk, OnErr, IsErr, IsTrue};
ghost use Rattle.support_io.specs.Append.{spare_of};
ghost use Rattle.support_io.specs.FailingCalls.{FailsNext, GoesOn};
ghost use Rattle.support_io.specs.Faults.{RoseByOne};
ghost use Rattle.support_io.specs.MemSink.{buffer_of, calls_of, most_of, state_of};
ghost use Rattle.support_io.specs.SinkState.{SinkKept, Appends, taken};

use crate::append::append_within;
use crate::failing_calls::FailingCalls;
use crate::{Failed, Sink};
use std::alloc::{AllocError, Global};

/// How many bytes the sink has room for.
const CAPACITY: usize = 16_777_216;

/// A sink in memory, with room for 16,777,216 bytes: of a piece past that a part is taken. The
/// calls of `write` are numbered from 0, and those whose number was given to `new` fail.
#[derive(Drop)]
pub struct MemSink {
    bytes: Vec<u8>,
    calls: FailingCalls,
    /// How many bytes a call takes at most.
    most: usize,
    faults: u64,
}

impl MemSink {
    /// An empty sink. The calls with the numbers `fail` are to fail, and the others take at most
    /// `most` bytes each.
    pub fn new(alloc: Global, fail: Vec<u32>, most: usize) -> Result<MemSink, AllocError>
        ensures tells { IfOk result (λ sink. IsTrue (⟦<MemSink as Sink>⟧.state sink).tells) }
        ensures written { IfOk result (λ sink. (⟦<MemSink as Sink>⟧.state sink).written ≡ []) }
        ensures calls { IfOk result (λ sink. calls_of sink ≡ record { fail = fail; next = 0 }) }
        ensures most { IfOk result (λ sink. most_of sink ≡ most) }
        ensures spare { IfOk result (λ sink. spare_of (buffer_of sink) ≡ 16_777_216) }
        ensures faults { IfOk result (λ sink. (⟦<MemSink as Sink>⟧.state sink).faults ≡ 0) }
    {
        Ok(MemSink {
            bytes: Vec::with_capacity(alloc, CAPACITY)?,
            calls: FailingCalls::new(fail),
            most,
            faults: 0,
        })
    }

    /// The bytes written so far.
    pub fn bytes(&self) -> &[u8]
        ensures { result.now ≡ (⟦<MemSink as Sink>⟧.state self.now).written }
    {
        self.bytes.as_slice()
    }
}

impl Sink for MemSink {
    ghost state = { state_of };

    fn write(&mut self, bytes: &[u8]) -> Result<usize, Failed>
        // It fails exactly where it is told to, and takes what it may and has memory for elsewhere.
        ensures fails { IsErr result ↔ FailsNext (calls_of self.old) }
        ensures count { IfOk result (λ count. count ≡ min (min (length bytes.now) (most_of self.old)) (spare_of (buffer_of self.old))) }
        ensures written { Appends (state_of self.old) (state_of self.new) (take (taken result) bytes.now) }
        ensures spare { spare_of (buffer_of self.old) ≤ spare_of (buffer_of self.new) + taken result }

        // A fault is where it fails, or takes none of some bytes; elsewhere none is counted.
        ensures failed { OnErr result (RoseByOne (state_of self.old).faults (state_of self.new).faults) }
        ensures none_taken { 0 < length bytes.now → result ≡ Ok 0
            → RoseByOne (state_of self.old).faults (state_of self.new).faults }
        ensures some_taken { 0 < taken result → (state_of self.new).faults ≡ (state_of self.old).faults }
        ensures no_bytes { length bytes.now ≡ 0
            → OnOk result ((state_of self.new).faults ≡ (state_of self.old).faults) }

        ensures kept { SinkKept (state_of self.old) (state_of self.new) }
        ensures most { most_of self.new ≡ most_of self.old }
        ensures goes_on { GoesOn (calls_of self.old) (calls_of self.new) }
    {
        if self.calls.next_fails() {
            self.faults = self.faults.saturating_add(1);
            return Err(Failed);
        }
        let most = bytes.len().min(self.most);
        let count = append_within(&mut self.bytes, &bytes[..most]);
        if count == 0 && !bytes.is_empty() {
            self.faults = self.faults.saturating_add(1);
        }
        Ok(count)
    }
}
