//! The byte order that a capture was written in.

use byteorder::{BigEndian, ByteOrder, LittleEndian};

/// The writer's byte order, which all numbers of a capture have.
#[derive(Clone, Copy)]
pub enum Order {
    /// The highest byte comes first.
    HighFirst,
    /// The lowest byte comes first.
    LowFirst,
}

impl Order {
    ghost use Rattle.std.specs.Prelude.{◌≡◌, ◌≤◌, length};
    ghost use Rattle.capture.specs.Numbers.{number_in};

    /// The number in the first four bytes.
    pub fn read_u32(self, bytes: &[u8]) -> u32
        requires { 4 ≤ length bytes.now }
        ensures { result ≡ number_in self bytes.now }
    {
        match self {
            Order::HighFirst => BigEndian::read_u32(bytes),
            Order::LowFirst => LittleEndian::read_u32(bytes),
        }
    }
}
