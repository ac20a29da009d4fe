//! The byte order that a section of a capture was written in.

use byteorder::{BigEndian, ByteOrder, LittleEndian};

/// The writer's byte order, which all numbers of a section have.
#[derive(Clone, Copy)]
pub(crate) enum Order {
    /// The highest byte comes first.
    HighFirst,
    /// The lowest byte comes first.
    LowFirst,
}

impl Order {
    ghost use Rattle.std.specs.Prelude.{◌≡◌, ◌≤◌, length};
    ghost use Rattle.bench_pcapng.specs.Numbers.{number_in};

    /// The number in the first two bytes.
    #[tactic(auto, unfolding(crate::specs::Numbers::number_in))]
    pub(crate) fn read_u16(self, bytes: &[u8]) -> u16
        requires { 2 ≤ length bytes.now }
        ensures { result ≡ number_in 2 self bytes.now }
    {
        match self {
            Order::HighFirst => BigEndian::read_u16(bytes),
            Order::LowFirst => LittleEndian::read_u16(bytes),
        }
    }

    /// The number in the first four bytes.
    #[tactic(auto, unfolding(crate::specs::Numbers::number_in))]
    pub(crate) fn read_u32(self, bytes: &[u8]) -> u32
        requires { 4 ≤ length bytes.now }
        ensures { result ≡ number_in 4 self bytes.now }
    {
        match self {
            Order::HighFirst => BigEndian::read_u32(bytes),
            Order::LowFirst => LittleEndian::read_u32(bytes),
        }
    }

    /// The number in the first eight bytes.
    #[tactic(auto, unfolding(crate::specs::Numbers::number_in))]
    pub(crate) fn read_u64(self, bytes: &[u8]) -> u64
        requires { 8 ≤ length bytes.now }
        ensures { result ≡ number_in 8 self bytes.now }
    {
        match self {
            Order::HighFirst => BigEndian::read_u64(bytes),
            Order::LowFirst => LittleEndian::read_u64(bytes),
        }
    }
}
