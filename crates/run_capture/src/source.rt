//! The frames of a run as they are held.
ghost use Rattle.std.specs.Prelude.{◌≡◌};
ghost use Rattle.run_capture.specs.Source.{fault_of_list};

use crate::fault::RunFault;
use capture::ListFault;
use capture_pieces::{Pieces, cut_frames};

/// The frames of a run, as they are held.
#[derive(Clone, Copy)]
pub enum FrameSource<'a> {
    /// Those of a capture file in the classic format, which is one slice.
    Whole(&'a [u8]),
    /// Those of such a file that is held in pieces.
    InPieces(&'a Pieces),
    /// Frames that the caller listed, as those of a capture in another format.
    Listed(&'a [&'a [u8]]),
    /// Frames that the caller couldn't list, as those of a capture in another format that has a fault. The caller knows why.
    Unlisted,
}

impl<'a> FrameSource<'a> {
    ghost use Rattle.run_capture.specs.Source.{cut_frames_in};

    /// How many of the frames were cut when they were taken, up to the first fault of their capture; None where the caller listed them.
    pub(crate) fn cut_frames(&self) -> Option<u64>
        ensures { result ≡ cut_frames_in self.now }
    {
        match self {
            FrameSource::Whole(file) => Some(cut_frames(file)),
            FrameSource::InPieces(pieces) => Some(pieces.cut_frames()),
            FrameSource::Listed(_) | FrameSource::Unlisted => None,
        }
    }
}

/// Why a run without frames writes nothing.
pub(crate) fn listing(fault: ListFault) -> RunFault
    ensures { result ≡ fault_of_list fault }
{
    match fault {
        ListFault::Capture(fault) => RunFault::Capture(fault),
        ListFault::NoMemory => RunFault::NoMemory,
    }
}
