//! Where a frame stands in bytes.
ghost use Rattle.std.specs.Prelude.{◌≡◌};
ghost use Rattle.bench_capture.specs.Formats.{IsWithin, recorded_at};

use crate::recorded::RecordedFrame;

/// A frame, by where its bytes stand.
#[derive(Clone, Copy)]
pub(crate) struct Span {
    /// Its time, in nanoseconds since the epoch.
    pub(crate) time: u64,
    /// How many bytes the frame had.
    pub(crate) original: u32,
    /// How many bytes stand before its own.
    pub(crate) start: usize,
    /// How many bytes of it are stored.
    pub(crate) length: usize,
}

/// The front of some bytes: a record or a block.
#[derive(Clone, Copy)]
pub(crate) struct Taken {
    /// How many bytes it has.
    pub(crate) length: usize,
    /// Its frame, if it holds one.
    pub(crate) frame: Option<Span>,
}

/// Bytes that are let go.
#[derive(Clone, Copy)]
pub(crate) struct Gap {
    /// How many bytes stand in front of them, and are kept.
    pub(crate) start: usize,
    /// How many there are.
    pub(crate) length: usize,
}

/// The frame that stands there.
pub(crate) fn frame_at(bytes: &[u8], span: Span) -> RecordedFrame<'_>
    requires { IsWithin bytes.now span }
    ensures { result ≡ recorded_at bytes.now span }
{
    let (_, from) = bytes.split_at(span.start);
    let (stored, _) = from.split_at(span.length);
    RecordedFrame::of(span.time, span.original, stored)
}
