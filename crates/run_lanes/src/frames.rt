//! Where the frames of a run are.
ghost use Rattle.std.specs.Prelude.{◌≡◌, length};
ghost use Rattle.run_lanes.specs.Frames.{frames_in};

use capture_pieces::Batches;

/// Where the frames of a run are.
#[derive(Clone, Copy)]
pub enum RunFrames<'f, 'a> {
    /// In a list.
    Listed(&'f [&'a [u8]]),
    /// In a capture that is cut into batches of the run's size.
    Cut(&'f Batches<'a>),
}

impl RunFrames<'_, '_> {
    /// How many frames there are.
    pub fn count(self) -> usize
        ensures { result ≡ length (frames_in self.entry) }
    {
        match self {
            RunFrames::Listed(list) => list.len(),
            RunFrames::Cut(batches) => batches.frame_count(),
        }
    }
}
