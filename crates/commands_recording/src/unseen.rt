//! Frames that may have been sent unseen: on their way as the captures in front of the unit began, or sent behind their ends.
use crate::clocks::frame_at;
use bench_record::{Capture, RecordSettings, Side, Source};

/// The least time of the frames of a capture, if it has some.
fn first_time(capture: &Capture<'_>) -> Option<u64> {
    let mut first = None;
    for frame in capture.frames {
        first = Some(frame.time.min(first.unwrap_or(u64::MAX)));
    }
    first
}

/// When the last one begins of the captures in front of the unit that have a frame, if there are some.
fn last_beginning(captures: &[Capture<'_>]) -> Option<u64> {
    let mut last = None;
    for capture in captures {
        if capture.side == Side::Into
            && let Some(first) = first_time(capture)
        {
            last = Some(first.max(last.unwrap_or(0)));
        }
    }
    last
}

/// The greatest time of the frames of a capture, if it has some.
fn last_time(capture: &Capture<'_>) -> Option<u64> {
    let mut last = None;
    for frame in capture.frames {
        last = Some(frame.time.max(last.unwrap_or(0)));
    }
    last
}

/// When the first one ends of the captures in front of the unit that have a frame, if there are some.
fn first_ending(captures: &[Capture<'_>]) -> Option<u64> {
    let mut first = None;
    for capture in captures {
        if capture.side == Side::Into
            && let Some(last) = last_time(capture)
        {
            first = Some(last.min(first.unwrap_or(u64::MAX)));
        }
    }
    first
}

/// Whether some of these frames left behind the end of a capture in front of the unit.
pub(crate) fn may_end_early(captures: &[Capture<'_>], left: &[Source]) -> bool {
    let Some(ended) = first_ending(captures) else {
        return false;
    };
    for source in left {
        if let Some(frame) = frame_at(captures, *source)
            && frame.time >= ended
        {
            return true;
        }
    }
    false
}

/// Whether some of these frames left before one would be lost that was sent as a capture in front of the unit began.
pub(crate) fn may_begin_late(
    captures: &[Capture<'_>],
    settings: &RecordSettings<'_>,
    left: &[Source],
) -> bool {
    let Some(begun) = last_beginning(captures) else {
        return false;
    };
    let until = begun.saturating_add(settings.lost.unwrap_or(0).saturating_mul(1_000_000));
    for source in left {
        if let Some(frame) = frame_at(captures, *source)
            && frame.time <= until
        {
            return true;
        }
    }
    false
}
