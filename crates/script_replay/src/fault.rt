//! Why a replay ended before the end of its script.
ghost use Rattle.std.specs.Prelude.{◌≡◌};
ghost use Rattle.script_replay.specs.Fault.{number_of, status_of};
ghost use Rattle.script_replay.specs.declared.fault.ReplayFault.TheVariants.{Write};

use text_writing::WriteFault;
use thiserror::Error;

/// Why a replay ended before the end of its script.
#[derive(Clone, Copy, Debug, PartialEq, Eq, Error)]
pub enum ReplayFault {
    /// A line is bad: its number, from 1. The answers to the lines before it are written.
    #[error("line {0} is bad")]
    BadLine(u64),
    /// A read failed, or there were too many of them. The reader had handed over so many bytes,
    /// and the answers to the lines that end in them are written.
    #[error("read failed after {0} bytes")]
    Read(u64),
    /// A write failed, or took no byte. A front of the answers is written.
    #[error("write failed")]
    Write,
    /// There was no memory to begin with. Nothing is read, and nothing written.
    #[error("no memory")]
    NoMemory,
}

impl ReplayFault {
    /// The number under which the fault is reported.
    pub fn code(self) -> u8
        ensures { result ≡ number_of self }
    {
        match self {
            ReplayFault::BadLine(_) => 1,
            ReplayFault::Read(_) => 2,
            ReplayFault::Write => 3,
            ReplayFault::NoMemory => 4,
        }
    }

    /// The status with which the program ends: 2 for a bad line, else 1.
    pub fn status(self) -> u8
        ensures { result ≡ status_of self }
    {
        match self {
            ReplayFault::BadLine(_) => 2,
            ReplayFault::Read(_) | ReplayFault::Write | ReplayFault::NoMemory => 1,
        }
    }
}

impl From<WriteFault> for ReplayFault {
    ghost from_gives = { λ _ fault. fault ≡ Write };

    fn from(_fault: WriteFault) -> ReplayFault {
        ReplayFault::Write
    }
}
