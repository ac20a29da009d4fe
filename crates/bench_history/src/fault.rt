//! Why a history isn't read.

use thiserror::Error;

/// Why a history isn't read.
#[derive(Clone, Copy, Debug, PartialEq, Eq, Error)]
pub enum HistoryFault {
    /// A line says nothing that can be, or may not stand behind the lines before it: the number, from 1, of the first such line.
    #[error("line {0} is bad")]
    BadLine(u64),
    /// There was no memory for the events.
    #[error("no memory")]
    NoMemory,
}
