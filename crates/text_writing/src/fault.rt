//! Why a text wasn't written, or not whole.
use crate::mistake::Mistake;
use crate::whole::WriteFault;
use std::alloc::AllocError;
use thiserror::Error;

/// Why a text wasn't written, or not whole.
#[derive(Clone, Copy, Debug, PartialEq, Eq, Error)]
pub enum TextFault {
    /// A write failed, or took no byte. A front of the text is written.
    #[error("write failed")]
    Write,
    /// There was no memory for the text.
    #[error("no memory")]
    NoMemory,
}

impl From<WriteFault> for TextFault {
    fn from(_fault: WriteFault) -> TextFault {
        TextFault::Write
    }
}

impl From<AllocError> for TextFault {
    fn from(_refused: AllocError) -> TextFault {
        TextFault::NoMemory
    }
}

/// Why the decoding of a script ended before its end.
#[derive(Clone, Copy, Debug, PartialEq, Eq, Error)]
pub enum DecodeFault {
    /// A line is bad: its number, from 1, and what is wrong in it. The texts of the lines before it are written.
    #[error("line {0} is bad")]
    BadLine(u64, Mistake),
    /// A read failed. The texts of the lines that end in what was read are written.
    #[error("read failed")]
    Read,
    /// A write failed, or took no byte. A front of the texts is written.
    #[error("write failed")]
    Write,
    /// There was no memory for a line or for its text. The texts of the lines before it are written.
    #[error("no memory")]
    NoMemory,
}

impl From<WriteFault> for DecodeFault {
    fn from(_fault: WriteFault) -> DecodeFault {
        DecodeFault::Write
    }
}

impl From<AllocError> for DecodeFault {
    fn from(_refused: AllocError) -> DecodeFault {
        DecodeFault::NoMemory
    }
}
