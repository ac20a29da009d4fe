//! Why a capture can't be read.

use capture::STORED_LIMIT;
use std::fmt;
use std::io::ErrorKind;
use thiserror::Error;

/// The words say this limit.
const _: () = prove!(STORED_LIMIT == 262_144);

/// What is wrong with a capture file of either format. Records and blocks are numbered from 0, the section header block being block 0.
#[derive(Clone, Copy, Debug, PartialEq, Eq)]
pub enum CaptureFileFault {
    /// The file begins neither with a magic number of the classic format nor with a section header block.
    Magic,
    /// The file ends within the header of 24 bytes; or its first block isn't a whole section header block of version 1.x.
    Header,
    /// The link type, which isn't that of Ethernet: of the file, or of the interface of a packet.
    Link(u16),
    /// The record or block of this number is cut short. Or a block's two lengths differ, aren't a multiple of four or are too small
    /// for what it holds, or it is a packet of an interface that isn't there. Or there are more than 4,294,967,295 records.
    Torn(u64),
    /// The record or block of this number stores over 262,144 bytes of a frame.
    TooLong(u64),
}

impl CaptureFileFault {
    ghost use Rattle.std.specs.Prelude.{◌≡◌};
    ghost use Rattle.bench_capture.specs.Faults.{number_of_fault};

    /// A fault of each kind, in the order of their numbers.
    pub const KINDS: [CaptureFileFault; 5] = [
        CaptureFileFault::Magic,
        CaptureFileFault::Header,
        CaptureFileFault::Link(0),
        CaptureFileFault::Torn(0),
        CaptureFileFault::TooLong(0),
    ];

    /// The number under which the fault is reported.
    pub fn code(self) -> u8
        ensures { result ≡ number_of_fault self }
    {
        match self {
            CaptureFileFault::Magic => 1,
            CaptureFileFault::Header => 2,
            CaptureFileFault::Link(_) => 3,
            CaptureFileFault::Torn(_) => 4,
            CaptureFileFault::TooLong(_) => 5,
        }
    }

    /// The link type, or the number of the record or block, if the fault has one.
    pub fn place(self) -> Option<u64> {
        match self {
            CaptureFileFault::Magic | CaptureFileFault::Header => None,
            CaptureFileFault::Link(link) => Some(u64::from(link)),
            CaptureFileFault::Torn(number) | CaptureFileFault::TooLong(number) => Some(number),
        }
    }

    /// What is wrong and what is expected, in words. `N` stands where a fault has its place.
    pub fn words(self) -> &'static str {
        match self {
            CaptureFileFault::Magic => {
                "no capture in libpcap's classic format or in pcapng, expected one of these"
            }
            CaptureFileFault::Header => {
                "the header is cut short, or of another version, expected a whole one"
            }
            CaptureFileFault::Link(_) => "link type N, expected Ethernet",
            CaptureFileFault::Torn(_) => {
                "record or block N, from 0, is cut short or broken, expected a whole one"
            }
            CaptureFileFault::TooLong(_) => {
                "record or block N, from 0, stores over 262144 bytes of a frame"
            }
        }
    }

    /// The name of a link type that captures often have, with a space in front.
    fn link_name(self) -> &'static str {
        match self {
            CaptureFileFault::Link(0) => " (BSD loopback)",
            CaptureFileFault::Link(101) => " (raw IP)",
            CaptureFileFault::Link(105) => " (IEEE 802.11)",
            CaptureFileFault::Link(113) => " (Linux cooked)",
            CaptureFileFault::Link(127) => " (IEEE 802.11 with radiotap)",
            CaptureFileFault::Link(276) => " (Linux cooked v2)",
            _ => "",
        }
    }
}

impl fmt::Display for CaptureFileFault {
    fn fmt<W: fmt::Write>(&self, f: &mut fmt::Formatter<W>) -> fmt::Result {
        let words = self.words();
        match (words.split_once('N'), self.place()) {
            (Some((front, behind)), Some(place)) => {
                let name = self.link_name();
                write!(f, "{front}{place}{name}{behind}")
            }
            _ => f.write_str(words),
        }
    }
}

impl std::error::Error for CaptureFileFault {}

impl From<capture::CaptureFault> for CaptureFileFault {
    ghost use Rattle.std.specs.Prelude.{◌≡◌};
    ghost use Rattle.bench_capture.specs.Faults.{of_classic};

    ghost from_gives = { λ fault told. told ≡ of_classic fault };

    fn from(fault: capture::CaptureFault) -> CaptureFileFault {
        match fault {
            capture::CaptureFault::Magic => CaptureFileFault::Magic,
            capture::CaptureFault::Header => CaptureFileFault::Header,
            capture::CaptureFault::Link(link) => CaptureFileFault::Link(link),
            capture::CaptureFault::Torn(number) => CaptureFileFault::Torn(u64::from(number)),
            capture::CaptureFault::TooLong(number) => CaptureFileFault::TooLong(u64::from(number)),
        }
    }
}

/// Why there is no next frame of a file in memory.
#[derive(Clone, Copy, Debug, PartialEq, Eq, Error)]
pub enum NextFrameFault {
    /// The file has this fault.
    #[error("{0}")]
    Capture(CaptureFileFault),
    /// There is no memory for one more interface. The file can be read on.
    #[error("no memory for the interfaces of a capture")]
    NoMemory,
}

/// Why there is no next frame of a file that is read in pieces.
#[derive(Clone, Copy, Debug, PartialEq, Eq, Error)]
pub enum ReadFault {
    /// The file has this fault.
    #[error("{0}")]
    Capture(CaptureFileFault),
    /// The reader failed in this way. No byte is lost, and the file can be read on.
    #[error("a capture can't be read on")]
    Unreadable(ErrorKind),
    /// There is no memory for the buffer or for one more interface. No byte is lost, and the file can be read on.
    #[error("no memory for a piece of a capture")]
    NoMemory,
}
