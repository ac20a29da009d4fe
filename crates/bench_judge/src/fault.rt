//! Why a history isn't judged.

use thiserror::Error;

/// Why a history isn't judged.
#[derive(Clone, Copy, Debug, PartialEq, Eq, Error)]
pub enum JudgeFault {
    /// A line is no event that may stand there: the number, from 1, of the first such line.
    #[error("line {0} is bad")]
    BadLine(u64),
    /// There was no memory for the judgement.
    #[error("no memory")]
    NoMemory,
}

impl JudgeFault {
    ghost use Rattle.std.specs.Prelude.{◌≡◌};
    ghost use Rattle.bench_judge.specs.Judged.{number_of_fault};

    /// The number of the fault.
    pub fn code(&self) -> u8
        ensures { result ≡ number_of_fault self.now }
    {
        match self {
            JudgeFault::BadLine(_) => 1,
            JudgeFault::NoMemory => 2,
        }
    }
}
