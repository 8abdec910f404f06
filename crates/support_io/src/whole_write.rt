//! Bytes written as a whole.

ghost use Rattle.std.specs.Prelude.{◌≡◌, ◌≤◌, length, IsOk, OnOk, OnErr};
ghost use Rattle.support_io.specs.Faults.{RoseByOne};
ghost use Rattle.support_io.specs.SinkState.{SinkKept, Appends, AppendsFront};

use crate::Sink;

/// A whole write that failed: of the bytes at most a front was written.
#[derive(Clone, Copy, Debug, PartialEq, Eq)]
pub struct WriteFault;

/// Writes all of `bytes`, in order. It takes no memory.
pub fn write_whole<S: Sink>(sink: &mut S, bytes: &[u8]) -> Result<(), WriteFault>
    ensures kept { SinkKept (S.state sink.old) (S.state sink.new) }

    ensures ok { OnOk result (Appends (S.state sink.old) (S.state sink.new) bytes.now) }
    ensures front { AppendsFront (S.state sink.old) (S.state sink.new) bytes.now }

    // One fault is counted where it fails, and none elsewhere. It does not fail where there is room for all bytes.
    ensures fault { OnErr result (RoseByOne (S.state sink.old).faults (S.state sink.new).faults) }
    ensures no_fault { OnOk result ((S.state sink.new).faults ≡ (S.state sink.old).faults) }
    ensures room_suffices { length bytes.now ≤ (S.state sink.old).room → IsOk result }
{
    let mut count = 0;
    while count < bytes.len() {
        match sink.write(&bytes[count..]) {
            Ok(more) if more > 0 => count += more,
            _ => return Err(WriteFault),
        }
    }
    Ok(())
}
