//! Why a batch isn't forwarded, and why reports, or their tallies, can't be gathered.
ghost use Rattle.std.specs.Prelude.{◌≡◌};
ghost use Rattle.batch_reports.specs.Faults.{number_of_batch_fault, number_of_gather_fault};

use crate::batch::MOST_FRAMES;
use thiserror::Error;

/// The words say this limit.
const _: () = prove!(MOST_FRAMES == 65_536);

/// Why a batch isn't forwarded.
#[derive(Clone, Copy, Debug, PartialEq, Eq, Error)]
pub enum BatchFault {
    /// There are so many frames, more than 65,536.
    #[error("{0} frames, expected at most 65536")]
    TooMany(usize),
    /// There is no memory for the verdicts, or for the count of a GEM port.
    #[error("no memory")]
    NoMemory,
    /// The gate let the batch not pass.
    #[error("stalled")]
    Stalled,
    /// A sum of the counts passes 64 bits.
    #[error("a counter passes 64 bits")]
    CountFull,
}

impl BatchFault {
    /// The number under which the fault is reported.
    pub fn code(self) -> u8
        ensures { result ≡ number_of_batch_fault self }
    {
        match self {
            BatchFault::TooMany(_) => 1,
            BatchFault::NoMemory => 2,
            BatchFault::Stalled => 3,
            BatchFault::CountFull => 4,
        }
    }
}

/// Why reports, or their tallies, can't be gathered.
#[derive(Clone, Copy, Debug, PartialEq, Eq, Error)]
pub enum GatherFault {
    /// An earlier one is of this batch too.
    #[error("batch {0} twice")]
    Double(u32),
    /// There is no batch of this number.
    #[error("no batch {0}")]
    Stranger(u32),
    /// None is of this batch.
    #[error("batch {0} missing")]
    Missing(u32),
    /// There is no memory for them in order, or for the count of a GEM port.
    #[error("no memory")]
    NoMemory,
    /// A sum of the counts passes 64 bits.
    #[error("a counter passes 64 bits")]
    CountFull,
}

impl GatherFault {
    /// The number under which the fault is reported.
    pub fn code(self) -> u8
        ensures { result ≡ number_of_gather_fault self }
    {
        match self {
            GatherFault::Double(_) => 1,
            GatherFault::Stranger(_) => 2,
            GatherFault::Missing(_) => 3,
            GatherFault::NoMemory => 4,
            GatherFault::CountFull => 5,
        }
    }
}
