//! A named input as a whole.

ghost use Rattle.std.specs.Prelude.{◌≡◌, ◌≢◌, ◌↔◌, ◌+◌, ◌^◌, ◌<◌, ◌≤◌, ◌++◌, [], length, vec_len, drop, IsTrue, IfOk, OnOk, IfSome, IsSomeAnd, IsErrOf};
ghost use Rattle.support_io.specs.Faults.{RoseByOne};
ghost use Rattle.support_io.specs.InputState.{InputsKept, StillOpen};
ghost use Rattle.support_io.specs.WholeRead.{whole_of, Answers, TakesAtMost};
ghost use Rattle.support_io.specs.declared.whole_read.ReadError.TheVariants.{NoMemory};

use crate::{Failed, Inputs};
use std::alloc::{AllocError, Global};

/// How many bytes are read at a time.
pub const PIECE: usize = 4096;

/// Why a whole read has no bytes to give.
#[derive(Clone, Copy, Debug, PartialEq, Eq)]
pub enum ReadError {
    /// The input could not be opened or read.
    ReadFault,
    /// The input holds more bytes than the cap allows.
    TooLong,
    /// There was no memory for the bytes.
    NoMemory,
}

impl From<AllocError> for ReadError {
    ghost from_gives = { λ _ e. e ≡ NoMemory };

    fn from(_: AllocError) -> Self {
        ReadError::NoMemory
    }
}

// Reads a piece of at most `most` bytes, and appends it to `bytes`. The answer is how many bytes
// these are, 0 at the end.
fn append_piece<I: Inputs>(
    inputs: &mut I,
    bytes: &mut Vec<u8>,
    most: usize,
) -> Result<usize, ReadError>
    requires open { IsTrue (I.state inputs.old).is_open }
    requires nonempty { 0 < most }

    ensures kept { InputsKept (I.state inputs.old) (I.state inputs.new) }

    ensures still_open { StillOpen (I.state inputs.old) (I.state inputs.new) }
    ensures within { IfOk result (λ count. count ≤ most) }
    ensures len { IfOk result (λ count. vec_len bytes.new ≡ vec_len bytes.old + count) }
    ensures appended { IsTrue (I.state inputs.old).tells
        → OnOk result (bytes.new.items ++ (I.state inputs.new).left ≡ bytes.old.items ++ (I.state inputs.old).left) }
    ensures end { IsTrue (I.state inputs.old).tells
        → IfOk result (λ count. (count ≡ 0) ↔ ((I.state inputs.old).left ≡ [])) }
    ensures taken { IsTrue (I.state inputs.old).tells
        → TakesAtMost most (I.state inputs.old).left (I.state inputs.new).left }

    ensures fault { IsErrOf result ReadError.ReadFault
        → RoseByOne (I.state inputs.old).faults (I.state inputs.new).faults }
    ensures no_fault { result ≢ Err ReadError.ReadFault
        → (I.state inputs.new).faults ≡ (I.state inputs.old).faults }
    ensures sure_reads { IsTrue (I.state inputs.old).is_open_sure → result ≢ Err ReadError.ReadFault }
    ensures not_too_long { result ≢ Err ReadError.TooLong }
{
    let mut piece = [0u8; PIECE];
    let lent = most.min(PIECE);
    match inputs.read(&mut piece[..lent]) {
        Ok(count) => {
            bytes.extend_from_slice(&piece[..count])?;
            Ok(count)
        }
        Err(Failed) => Err(ReadError::ReadFault),
    }
}

// Reads the open input to its end, or one byte past the cap.
fn read_opened<I: Inputs>(alloc: Global, inputs: &mut I, cap: u32) -> Result<Vec<u8>, ReadError>
    requires open { IsTrue (I.state inputs.old).is_open }
    requires small { cap < 2 ^ 31 }

    ensures kept { InputsKept (I.state inputs.old) (I.state inputs.new) }

    ensures still_open { StillOpen (I.state inputs.old) (I.state inputs.new) }
    ensures within_cap { IfOk result (λ bytes. length bytes.items ≤ cap) }
    ensures whole { IsTrue (I.state inputs.old).tells
        → IfOk result (λ bytes. bytes.items ≡ (I.state inputs.old).left) }
    ensures ended { IsTrue (I.state inputs.old).tells → OnOk result ((I.state inputs.new).left ≡ []) }
    ensures too_long { IsTrue (I.state inputs.old).tells → IsErrOf result ReadError.TooLong
        → cap < length (I.state inputs.old).left }
    ensures one_past { IsTrue (I.state inputs.old).tells → IsErrOf result ReadError.TooLong
        → (I.state inputs.new).left ≡ drop (cap + 1) (I.state inputs.old).left }
    ensures taken { IsTrue (I.state inputs.old).tells
        → TakesAtMost (cap + 1) (I.state inputs.old).left (I.state inputs.new).left }

    ensures fault { IsErrOf result ReadError.ReadFault
        → RoseByOne (I.state inputs.old).faults (I.state inputs.new).faults }
    ensures no_fault { result ≢ Err ReadError.ReadFault
        → (I.state inputs.new).faults ≡ (I.state inputs.old).faults }
    ensures sure_reads { IsTrue (I.state inputs.old).is_open_sure → result ≢ Err ReadError.ReadFault }
{
    let limit = cap as usize + 1;
    let mut bytes = Vec::new(alloc);
    while bytes.len() < limit {
        let most = limit - bytes.len();
        if append_piece(inputs, &mut bytes, most)? == 0 {
            return Ok(bytes);
        }
    }
    Err(ReadError::TooLong)
}

/// Opens `name` and reads all of it, in pieces of 4,096 bytes, if it has at most `cap` bytes. Of a
/// longer input one byte past the cap is read and no more.
pub fn read_whole<I: Inputs>(
    alloc: Global,
    inputs: &mut I,
    name: &str,
    cap: u32,
) -> Result<Vec<u8>, ReadError>
    requires { cap < 2 ^ 31 }

    ensures kept { InputsKept (I.state inputs.old) (I.state inputs.new) }

    // The answer is all that the name holds, read to its end. Longer contents are too long, and
    // nothing else is.
    ensures answer { IsTrue (I.state inputs.old).tells
        → Answers result (whole_of cap ((I.state inputs.old).held name.now)) }
    // From answer follow whole and too_long; within_cap holds over all inputs.
    ensures whole { IsTrue (I.state inputs.old).tells
        → IfOk result (λ bytes. (I.state inputs.old).held name.now ≡ Some bytes.items) }
    ensures within_cap { IfOk result (λ bytes. length bytes.items ≤ cap) }
    ensures too_long { IsTrue (I.state inputs.old).tells → IsErrOf result ReadError.TooLong
        → IsSomeAnd ((I.state inputs.old).held name.now) (λ bytes. cap < length bytes) }

    // A fault has its cause in this call.
    ensures fault { IsErrOf result ReadError.ReadFault
        → RoseByOne (I.state inputs.old).faults (I.state inputs.new).faults }
    ensures no_fault { result ≢ Err ReadError.ReadFault
        → (I.state inputs.new).faults ≡ (I.state inputs.old).faults }
    ensures sure_reads { IsTrue ((I.state inputs.old).sure name.now)
        → result ≢ Err ReadError.ReadFault }

    // How much was taken from the input, which is left open but for a fault.
    ensures still_open { result ≢ Err ReadError.ReadFault → IsTrue (I.state inputs.new).is_open }
    ensures named { IsTrue (I.state inputs.old).tells → IsTrue (I.state inputs.new).is_open → (I.state inputs.new).name ≡ name.now }
    ensures ended { IsTrue (I.state inputs.old).tells → OnOk result ((I.state inputs.new).left ≡ []) }
    ensures one_past { IsTrue (I.state inputs.old).tells → IsErrOf result ReadError.TooLong
        → IfSome ((I.state inputs.old).held name.now) (λ bytes. (I.state inputs.new).left ≡ drop (cap + 1) bytes) }
    ensures taken { IsTrue (I.state inputs.old).tells → IsTrue (I.state inputs.new).is_open
        → IsSomeAnd ((I.state inputs.old).held name.now) (λ bytes. TakesAtMost (cap + 1) bytes (I.state inputs.new).left) }
{
    if inputs.open(name).is_err() {
        return Err(ReadError::ReadFault);
    }
    read_opened(alloc, inputs, cap)
}
