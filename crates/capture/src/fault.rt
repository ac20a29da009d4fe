//! Why a capture can't be read.

use crate::limits::STORED_LIMIT;
use thiserror::Error;

/// The words say this limit.
const _: () = prove!(STORED_LIMIT == 262_144);

/// What is wrong with a capture file. Where several things are, it is the one that stands first
/// here, and of records the first that has a fault. They are numbered from 0.
#[derive(Clone, Copy, Debug, PartialEq, Eq, Error)]
pub enum CaptureFault {
    /// The file begins with none of the four spellings of a magic number.
    #[error("no magic number of a capture, expected 0xa1b2c3d4 or 0xa1b23c4d in either byte order")]
    Magic,
    /// There are under 24 bytes, which the header has.
    #[error("capture ends within its header, expected 24 bytes")]
    Header,
    /// The link type, by its low 16 bits, isn't that of Ethernet.
    #[error("link type {0}, expected 1 of Ethernet")]
    Link(u16),
    /// The record of this number is cut: the file ends within its 16 bytes or within those that it
    /// stores. With 4,294,967,295, there may also be more records than so many.
    #[error("record {0} is cut short, expected 16 bytes and those that they give the length of")]
    Torn(u32),
    /// The record of this number stores over 262,144 bytes.
    #[error("record {0} stores over 262144 bytes")]
    TooLong(u32),
}

impl CaptureFault {
    ghost use Rattle.std.specs.Prelude.{◌≡◌};
    ghost use Rattle.capture.specs.Fault.{number_of_fault};

    /// The number under which the fault is reported.
    pub fn code(self) -> u8
        ensures { result ≡ number_of_fault self }
    {
        match self {
            CaptureFault::Magic => 1,
            CaptureFault::Header => 2,
            CaptureFault::Link(_) => 3,
            CaptureFault::Torn(_) => 4,
            CaptureFault::TooLong(_) => 5,
        }
    }
}
