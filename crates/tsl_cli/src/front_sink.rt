//! A sink that keeps the front of what it hands on, and what is to be said of the open blocks of a table.

ghost use Rattle.std.specs.Prelude.{◌≡◌};

use program_advice::OpenBlocks;
use std::alloc::Global;
use support_io::{Failed, Sink};

/// How many bytes are kept at most.
const MOST_KEPT: usize = 4096;

/// A sink that hands each piece on to another one, and keeps the first 4,096 bytes that this one took, and what is to be said of open blocks.
#[derive(Drop)]
pub struct FrontSink<S> {
    sink: S,
    front: Vec<u8>,
    open: OpenBlocks,
}

impl<S: Sink> FrontSink<S> {
    /// Nothing is kept yet.
    pub fn new(alloc: Global, sink: S) -> FrontSink<S>
        ensures { ⟦<FrontSink<S> as Sink>⟧.state result ≡ S.state sink }
    {
        FrontSink {
            sink,
            front: Vec::new(alloc),
            open: OpenBlocks::new(alloc),
        }
    }

    /// What is kept.
    pub fn front(&self) -> &[u8] {
        self.front.as_slice()
    }

    /// What is known of the open blocks.
    pub fn open_blocks(&self) -> &OpenBlocks {
        &self.open
    }
}

impl<S: Sink> Sink for FrontSink<S> {
    ghost state = { λ front. S.state front.sink };

    fn write(&mut self, bytes: &[u8]) -> Result<usize, Failed> {
        match self.sink.write(bytes) {
            Ok(count) => {
                keep(&mut self.front, &bytes[..count]);
                // (where memory runs out, less is said)
                let _taken = self.open.take_in(&bytes[..count]);
                Ok(count)
            }
            Err(failed) => Err(failed),
        }
    }
}

/// Keeps as much of the front of a piece as is still wanted. Where there is no memory, less is kept.
fn keep(front: &mut Vec<u8>, piece: &[u8]) {
    let wanted = MOST_KEPT.saturating_sub(front.len());
    let _kept = front.extend_from_slice(&piece[..piece.len().min(wanted)]);
}
