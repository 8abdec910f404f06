//! Standard output as a sink.
//!
//! `write_front` does the work, and its contract says which bytes it hands to a writer. What reaches standard
//! output no contract can tell: that is shown by the stored run of the program.

ghost use Rattle.std.specs.Prelude.{◌≡◌, ◌<◌, ◌≤◌, false, [], length, IfOk, OnOk, OnErr};
ghost use Rattle.std.specs.Io.KnownBytes.{WriteAppends};
ghost use Rattle.support_io.specs.Faults.{RoseByOne};
ghost use Rattle.support_io.specs.SinkState.{taken};

use crate::{Failed, Sink};
use std::io;
use std::io::{Print, Write};

/// Standard output. What reaches it is not told.
#[derive(Drop)]
pub struct StdSink<'a, R: Print> {
    rt: &'a R,
    faults: u64,
}

impl<'a, R: Print> StdSink<'a, R> {
    /// The standard output of `rt`.
    pub fn new(rt: &'a R) -> StdSink<'a, R>
        ensures { (⟦<StdSink<'a, R> as Sink>⟧.state result).faults ≡ 0 }
    {
        StdSink { rt, faults: 0 }
    }
}

impl<R: Print> Sink for StdSink<'_, R> {
    ghost state = { λ sink. record {
      tells = false;
      written = [];
      faults = sink.faults;
      room = 0;
    } };

    fn write(&mut self, bytes: &[u8]) -> Result<usize, Failed> {
        write_front(&mut io::writer(self.rt), bytes, &mut self.faults)
    }
}

/// Writes a front of `bytes`, and answers how many bytes that is. A fault is counted where the writer fails or takes
/// none of some bytes, and nowhere else.
fn write_front<W: Write>(writer: &mut W, bytes: &[u8], faults: &mut u64) -> Result<usize, Failed>
    ensures within { IfOk result (λ count. count ≤ length bytes.now) }
    ensures bytes { WriteAppends (W.contents writer.old) (W.contents writer.new) result bytes.now }
    ensures faults { faults.old ≤ faults.new }
    ensures failed { OnErr result (RoseByOne faults.old faults.new) }
    ensures none_taken { 0 < length bytes.now → result ≡ Ok 0 → RoseByOne faults.old faults.new }
    ensures some_taken { 0 < taken result → faults.new ≡ faults.old }
    ensures no_bytes { length bytes.now ≡ 0 → OnOk result (faults.new ≡ faults.old) }
{
    match writer.write(bytes) {
        Ok(count) if count > 0 || bytes.is_empty() => Ok(count),
        outcome => {
            *faults = faults.saturating_add(1);
            outcome.map_err(|_| Failed)
        }
    }
}
