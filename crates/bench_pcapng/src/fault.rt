//! Why a capture can't be read.

use capture::STORED_LIMIT;
use thiserror::Error;

/// The words say this limit.
const _: () = prove!(STORED_LIMIT == 262_144);

/// What is wrong with a capture in the pcapng format, or that there is no memory to read on. Blocks are numbered from 0.
#[derive(Clone, Copy, Debug, PartialEq, Eq, Error)]
pub enum PcapngFault {
    /// The first block isn't a whole section header block, its byte order mark is neither way round, or its version isn't 1.x.
    #[error("the first block is no section header of version 1")]
    Header,
    /// A packet's interface has this link type, which isn't that of Ethernet.
    #[error("link type {0}, expected 1 of Ethernet")]
    Link(u16),
    /// The block of this number is cut, its two lengths differ or aren't a multiple of four, or they are too small for what it holds.
    /// Or it is a packet of an interface that isn't there, or a later section header whose byte order mark or version is wrong.
    #[error("block {0} is cut short, or names an interface that isn't there")]
    Torn(u64),
    /// The packet that the block of this number holds stores over 262,144 bytes.
    #[error("block {0} stores over 262144 bytes")]
    TooLong(u64),
    /// There is no memory for one more interface. The capture is as it was, and can be read on.
    #[error("no memory for the interfaces of a capture")]
    NoMemory,
}

impl PcapngFault {
    ghost use Rattle.std.specs.Prelude.{◌≡◌};
    ghost use Rattle.bench_pcapng.specs.Fault.{number_of_fault};

    /// The number under which the fault is reported.
    pub fn code(self) -> u8
        ensures { result ≡ number_of_fault self }
    {
        match self {
            PcapngFault::Header => 2,
            PcapngFault::Link(_) => 3,
            PcapngFault::Torn(_) => 4,
            PcapngFault::TooLong(_) => 5,
            PcapngFault::NoMemory => 6,
        }
    }
}

/// What is wrong with one block.
#[derive(Clone, Copy, Debug)]
pub(crate) enum BlockFault {
    /// It is too small for what it holds, or names an interface that isn't there.
    Torn,
    /// Its packet stores more bytes than one may.
    TooLong,
    /// Its packet's interface has this link type.
    Link(u16),
}

impl BlockFault {
    ghost use Rattle.std.specs.Prelude.{◌≡◌};
    ghost use Rattle.bench_pcapng.specs.Fault.{at_block};

    /// The fault of a capture that has it at the block of this number.
    pub(crate) fn at(self, number: u64) -> PcapngFault
        ensures { result ≡ at_block number self }
    {
        match self {
            BlockFault::Torn => PcapngFault::Torn(number),
            BlockFault::TooLong => PcapngFault::TooLong(number),
            BlockFault::Link(link) => PcapngFault::Link(link),
        }
    }
}
