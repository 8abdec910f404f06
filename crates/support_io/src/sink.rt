//! Where a program writes.

ghost use Rattle.std.specs.Prelude.{◌≡◌, ◌+◌, ◌<◌, ◌≤◌, length, take, IfOk, OnOk, OnErr};
ghost use Rattle.support_io.specs.Faults.{RoseByOne};
ghost use Rattle.support_io.specs.SinkState.{SinkState, SinkKept, Appends, taken};

use crate::Failed;

/// A sink of bytes. Some sinks tell what was written to them, as those in memory do. Of the others,
/// as standard output, no contract can say what reached them: there `written` of the state means
/// nothing.
pub trait Sink {
    /// How this sink stands: what was written, the faults, and the room.
    ghost state: { Self → SinkState };

    /// Writes a front of `bytes`, and answers how many bytes that is.
    fn write(&mut self, bytes: &[u8]) -> Result<usize, Failed>
        ensures kept { SinkKept (state self.old) (state self.new) }
        ensures within { IfOk result (λ count. count ≤ length bytes.now) }
        ensures written { Appends (state self.old) (state self.new) (take (taken result) bytes.now) }

        // A fault is where it fails, or takes none of some bytes; elsewhere none is counted.
        ensures failed { OnErr result (RoseByOne (state self.old).faults (state self.new).faults) }
        ensures none_taken { 0 < length bytes.now → result ≡ Ok 0
            → RoseByOne (state self.old).faults (state self.new).faults }
        ensures some_taken { 0 < taken result → (state self.new).faults ≡ (state self.old).faults }
        ensures no_bytes { length bytes.now ≡ 0
            → OnOk result ((state self.new).faults ≡ (state self.old).faults) }

        // No fault comes where there is room.
        ensures whole { 0 < length bytes.now → length bytes.now ≤ (state self.old).room
            → result ≡ Ok (length bytes.now) }
        ensures room { (state self.old).room ≤ (state self.new).room + taken result };
}
