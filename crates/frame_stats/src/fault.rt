//! Why counting fails.
use thiserror::Error;

/// Why counts can't be made.
#[derive(Clone, Copy, Debug, PartialEq, Eq, Error)]
pub enum CountFault {
    /// A sum passes 64 bits.
    #[error("a counter passes 64 bits")]
    CountFull,
    /// There is no memory for the entry of a GEM port.
    #[error("no memory for the counter of a GEM port")]
    NoMemory,
}

/// Why a book can't be made, or counts can't be added to it. Where several things are, it is the one that stands first here.
#[derive(Clone, Copy, Debug, PartialEq, Eq, Error)]
pub enum StatFault {
    /// The number of lanes isn't 1 to 16, or the book has no lane of this number.
    #[error("not 1 to 16 lanes, or no such lane")]
    Lane,
    /// A sum of the total passes 64 bits.
    #[error("a counter passes 64 bits")]
    CountFull,
    /// There is no memory for the parts, or for the entry of a GEM port.
    #[error("no memory for counters")]
    NoMemory,
}

impl CountFault {
    ghost use Rattle.std.specs.Prelude.{◌≡◌};
    ghost use Rattle.frame_stats.specs.Faults.{number_of_count_fault};

    /// The number under which the fault is reported.
    pub fn code(self) -> u8
        ensures { result ≡ number_of_count_fault self }
    {
        match self {
            CountFault::CountFull => 1,
            CountFault::NoMemory => 2,
        }
    }
}

impl StatFault {
    ghost use Rattle.std.specs.Prelude.{◌≡◌};
    ghost use Rattle.frame_stats.specs.Faults.{number_of_stat_fault};

    /// The number under which the fault is reported.
    pub fn code(self) -> u8
        ensures { result ≡ number_of_stat_fault self }
    {
        match self {
            StatFault::Lane => 1,
            StatFault::CountFull => 2,
            StatFault::NoMemory => 3,
        }
    }
}

impl From<CountFault> for StatFault {
    ghost use Rattle.std.specs.Prelude.{◌≡◌};
    ghost use Rattle.frame_stats.specs.Faults.{stat_fault_of};

    ghost from_gives = { λ fault given. given ≡ stat_fault_of fault };

    fn from(fault: CountFault) -> StatFault {
        match fault {
            CountFault::CountFull => StatFault::CountFull,
            CountFault::NoMemory => StatFault::NoMemory,
        }
    }
}
