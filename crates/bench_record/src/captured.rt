//! Captures, and the frames in them.

use bench_history::{Extent, SeenGem};

/// On which side of the unit a capture was taken.
#[derive(Clone, Copy, Debug, PartialEq, Eq)]
pub enum Side {
    /// On the management channel.
    Omci,
    /// In front of the unit.
    Into,
    /// Behind the unit.
    OutOf,
}

/// Where a frame was captured.
#[derive(Clone, Copy)]
pub enum Tap {
    /// On the management channel, in one direction or both.
    Omci,
    /// In front of a port of the unit: the frame is sent into the port.
    Into { port: u16 },
    /// Behind the unit: the frame has left it, by this GEM port, if the capture shows it.
    OutOf { gem: SeenGem },
}

/// A frame of a capture.
#[derive(Clone, Copy)]
pub struct CapturedFrame<'a> {
    /// When it was seen, in nanoseconds. All captures have one clock.
    pub time: u64,
    /// Where it was seen.
    pub tap: Tap,
    /// Whether the capture has all of it or its first bytes alone.
    pub extent: Extent,
    /// Its bytes, from the destination's address on, as far as the capture has them.
    pub bytes: &'a [u8],
}

/// A capture: its frames in the order in which it has them.
#[derive(Clone, Copy)]
pub struct Capture<'a> {
    pub side: Side,
    pub frames: &'a [CapturedFrame<'a>],
}

/// Where a frame stands in captures.
#[derive(Clone, Copy, Debug, PartialEq, Eq)]
pub struct Source {
    /// The number of its capture, from 0.
    pub capture: usize,
    /// The number of its record in that, from 1.
    pub place: usize,
}
