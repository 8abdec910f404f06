//! Appending within the memory that is there.

ghost use Rattle.std.specs.Prelude.{◌≡◌, ◌+◌, ◌≤◌, ◌++◌, length, take, min};
ghost use Rattle.support_io.specs.Append.{spare_of};

/// Appends as much of the front of `piece` as the memory of `bytes` has room for, and answers how
/// many bytes that is.
pub fn append_within(bytes: &mut Vec<u8>, piece: &[u8]) -> usize
    ensures count { result ≡ min (length piece.now) (spare_of bytes.old) }
    ensures items { bytes.new.items ≡ bytes.old.items ++ take result piece.now }
    ensures spare { spare_of bytes.old ≤ spare_of bytes.new + result }
{
    let spare = bytes.capacity() - bytes.len();
    let count = piece.len().min(spare);
    bytes.extend_from_slice(&piece[..count]).unwrap();
    count
}
