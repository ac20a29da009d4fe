//! Why not all frames of a capture were forwarded.
ghost use Rattle.std.specs.Prelude.{◌≡◌};
ghost use Rattle.bench_forward.specs.declared.fault.ForwardFault.TheVariants.{Write};

use bench_capture::ReadFault;
use text_writing::WriteFault;
use thiserror::Error;

/// Why not all frames of a capture were forwarded. What was written before it stays.
#[derive(Clone, Copy, Debug, PartialEq, Eq, Error)]
pub enum ForwardFault {
    /// The capture can't be read on: it has this fault, its reader failed, or there is no memory for a piece of it. All frames before
    /// that are forwarded.
    #[error("{0}")]
    Read(ReadFault),
    /// A sum of the totals passes 64 bits with one frame more. All frames before it are forwarded.
    #[error("a counter passes 64 bits")]
    CountFull,
    /// A write failed, or took no byte. A front of what comes of the frames is written.
    #[error("write failed")]
    Write,
}

impl From<WriteFault> for ForwardFault {
    ghost from_gives = { λ _ fault. fault ≡ Write };

    fn from(_fault: WriteFault) -> ForwardFault {
        ForwardFault::Write
    }
}
