//! Why a run gives nothing.
ghost use Rattle.std.specs.Prelude.{◌≡◌, ◌≢◌};

use frame_batch::{BatchFault, GatherFault};
use plan_publish::OpenFault;
use thiserror::Error;

/// Why a run gives nothing. Where several things are so, any of them may be told: lanes don't wait for one another.
#[derive(Clone, Copy, Debug, PartialEq, Eq, Error)]
pub enum LaneFault {
    /// There is no memory: for the plan's copies, for a message, for a batch's frames or verdicts, or for what is kept of the
    /// batches.
    #[error("no memory")]
    NoMemory,
    /// The gate answered false, or a lane got no place, couldn't enter, or didn't hold at the end what was published.
    #[error("refused")]
    Refused,
    /// A sum of the counts passes 64 bits.
    #[error("a counter passes 64 bits")]
    CountFull,
}

/// Why there are no lanes.
pub(crate) fn opening(fault: OpenFault) -> LaneFault
    ensures { result ≢ LaneFault.CountFull }
{
    match fault {
        OpenFault::NoMemory => LaneFault::NoMemory,
        OpenFault::Lanes(_) | OpenFault::Refused => LaneFault::Refused,
    }
}

/// Why a batch isn't forwarded.
pub(crate) fn forwarding(fault: BatchFault) -> LaneFault
    ensures { result ≡ LaneFault.CountFull → fault ≡ BatchFault.CountFull }
{
    match fault {
        BatchFault::NoMemory => LaneFault::NoMemory,
        BatchFault::CountFull => LaneFault::CountFull,
        BatchFault::TooMany(_) | BatchFault::Stalled => LaneFault::Refused,
    }
}

/// Why tallies aren't gathered.
pub(crate) fn gathering(fault: GatherFault) -> LaneFault
    ensures { result ≡ LaneFault.CountFull → fault ≡ GatherFault.CountFull }
{
    match fault {
        GatherFault::NoMemory => LaneFault::NoMemory,
        GatherFault::CountFull => LaneFault::CountFull,
        GatherFault::Double(_) | GatherFault::Stranger(_) | GatherFault::Missing(_) => {
            LaneFault::Refused
        }
    }
}
