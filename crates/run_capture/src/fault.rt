//! Why a run wrote nothing, or not all.
ghost use Rattle.std.specs.Prelude.{◌≡◌};
ghost use Rattle.run_capture.specs.Fault.{number_of_fault, status_of_fault};

use capture::CaptureFault;
use run_settings::{BATCH_LIMIT, LANE_LIMIT};
use thiserror::Error;

/// The words say these limits.
const _: () = prove!(LANE_LIMIT == 16 && BATCH_LIMIT == 65_536);

/// Why a run didn't write its lines. Of the first four it is the one that stands first here; they are found whether or not there
/// is memory.
#[derive(Clone, Copy, Debug, PartialEq, Eq, Error)]
pub enum RunFault {
    /// There aren't 1 to 16 lanes, or a batch hasn't 1 to 65,536 frames.
    #[error("wrong settings, expected 1 to 16 lanes and batches of 1 to 65536 frames")]
    Settings,
    /// The trace's line of this number, from 1, is the first that is bad or a frame.
    #[error("line {0} of the trace is bad")]
    BadTrace(u64),
    /// The file is no capture.
    #[error("the capture can't be read: {0}")]
    Capture(CaptureFault),
    /// The caller couldn't list the frames.
    #[error("the frames can't be listed")]
    Unlisted,
    /// There is no memory for the run or for its lines.
    #[error("no memory")]
    NoMemory,
    /// A lane got no place, couldn't enter, or didn't hold at the end what was published. Or 2^32 frames or more are listed.
    #[error("refused")]
    Refused,
    /// A sum of the counts passes 64 bits.
    #[error("a counter passes 64 bits")]
    CountFull,
    /// A write failed, or took no byte. A front of the lines is written.
    #[error("write failed")]
    Write,
}

impl RunFault {
    /// The number under which the fault is reported.
    pub fn code(self) -> u8
        ensures { result ≡ number_of_fault self }
    {
        match self {
            RunFault::Settings => 1,
            RunFault::BadTrace(_) => 2,
            RunFault::Capture(_) => 3,
            RunFault::NoMemory => 4,
            RunFault::Refused => 5,
            RunFault::CountFull => 6,
            RunFault::Write => 7,
            RunFault::Unlisted => 8,
        }
    }

    /// The status with which the program ends: 2 for a bad trace line or for frames that can't be read, else 1.
    pub fn status(self) -> u8
        ensures { result ≡ status_of_fault self }
    {
        match self {
            RunFault::BadTrace(_) | RunFault::Capture(_) | RunFault::Unlisted => 2,
            RunFault::Settings
            | RunFault::NoMemory
            | RunFault::Refused
            | RunFault::CountFull
            | RunFault::Write => 1,
        }
    }
}
