//! What is known of versions before they are looked for.

use crate::bounds::version_at;
use crate::frame::Frame;
use std::alloc::Global;

/// Versions that the frames of the events before a place may have together, by their numbers.
#[derive(Drop)]
pub(crate) struct Known {
    pub(crate) until: usize,
    pub(crate) versions: Vec<usize>,
}

impl Known {
    ghost use Rattle.std.specs.Prelude.{◌≡◌};
    ghost use Rattle.bench_judge.specs.Known.{known_version};

    /// Nothing is known.
    pub(crate) fn nothing(alloc: Global) -> Self
        ensures { result.until ≡ 0 }
    {
        Known {
            until: 0,
            versions: Vec::new(alloc),
        }
    }

    /// The version that is known of the frame of a number, if one is.
    pub(crate) fn version_of(&self, number: usize, frame: &Frame) -> Option<usize>
        ensures { result ≡ known_version self.now number frame.now }
    {
        match frame.ended {
            Some(end) if end < self.until => Some(version_at(&self.versions, number)),
            _ => None,
        }
    }
}
