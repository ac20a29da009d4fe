//! Whether a frame was seen to end as entities mean it to.
ghost use Rattle.std.specs.Prelude.{Decides};
ghost use Rattle.bench_judge.specs.Doubt.{LeavesSo};
ghost use Rattle.bench_judge.specs.Frames.{IsSeenBy};

use crate::frame::Frame;
use bench_history::Event;
use bench_sight::{Buffers, ends_as};
use forward_plan::Live;

/// Whether by these entities a frame leaves as one was seen to.
pub(crate) fn leaves_so(
    live: &Live,
    padded: bool,
    events: &[Event<'_>],
    frame: &Frame,
    seen: &Event<'_>,
    buffers: &mut Buffers,
) -> bool
    ensures { Decides result (LeavesSo padded events.now frame.now seen.now live.now) }
{
    let Some(
        Event::Entered {
            port,
            extent,
            frame: sent,
        },
    ) = events.get(frame.sent)
    else {
        return false;
    };
    ends_as(live, padded, *port, *extent, sent, seen, buffers)
}

/// Whether by these entities a frame leaves, or is dropped, as it was seen to.
pub(crate) fn is_seen(
    live: &Live,
    padded: bool,
    events: &[Event<'_>],
    frame: &Frame,
    buffers: &mut Buffers,
) -> bool
    ensures { Decides result (IsSeenBy padded events.now frame.now live.now) }
{
    let Some(end) = frame.ended else {
        return false;
    };
    let Some(seen) = events.get(end) else {
        return false;
    };
    leaves_so(live, padded, events, frame, seen, buffers)
}
