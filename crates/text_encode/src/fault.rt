//! Why no script was made of a text.
use std::alloc::AllocError;
use text_writing::WriteFault;
use thiserror::Error;

/// Why no script was made of a text.
#[derive(Clone, Copy, Debug, PartialEq, Eq, Error)]
pub enum EncodeFault {
    /// The text has so many mistakes, one at least. They are written; of the script nothing is.
    #[error("{0} mistakes")]
    Mistakes(u64),
    /// A read failed. Nothing is written.
    #[error("read failed")]
    Read,
    /// A write failed, or took no byte. A front of the script is written.
    #[error("write failed")]
    Write,
    /// There was no memory. Nothing is written.
    #[error("no memory")]
    NoMemory,
}

impl From<WriteFault> for EncodeFault {
    fn from(_fault: WriteFault) -> EncodeFault {
        EncodeFault::Write
    }
}

impl From<AllocError> for EncodeFault {
    fn from(_refused: AllocError) -> EncodeFault {
        EncodeFault::NoMemory
    }
}
