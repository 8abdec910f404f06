//! The order of the bytes of a word.

ghost use Rattle.std.specs.Prelude.{◌≡◌, ◌≤◌, length};
ghost use Rattle.code_image.specs.Image.{word_of};

use byteorder::{BigEndian, ByteOrder, LittleEndian};

/// The order of the bytes of a word: the most significant byte first, or the least significant one.
#[derive(Clone, Copy, Debug, PartialEq, Eq)]
pub enum Order {
    Big,
    Little,
}

/// The word of the first four bytes.
pub(crate) fn word(order: Order, bytes: &[u8]) -> u32
    requires { 4 ≤ length bytes.now }
    ensures { result ≡ word_of order bytes.now }
{
    match order {
        Order::Big => BigEndian::read_u32(bytes),
        Order::Little => LittleEndian::read_u32(bytes),
    }
}
