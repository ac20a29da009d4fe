//! Frames that left before they were sent, as where captures have several clocks.
use bench_history::Extent;
use bench_record::{
    Capture, CapturedFrame, CoreKey, FrameCore, RecordSettings, Source, Tap, core_of, shortest_with,
};
use std::alloc::{AllocError, Global};
use std::collections::HashMap;

/// How soon behind a frame that left one of its core has to be sent, in nanoseconds: a second.
const SOON: u64 = 1_000_000_000;

/// The fewest bytes of a front by which a frame is known.
const SHORTEST_FRONT: usize = 24;

/// A frame that left before any of its core was sent.
#[derive(Clone, Copy)]
pub(crate) struct Ahead {
    /// Where it was seen.
    pub(crate) source: Source,
    /// How long before, in nanoseconds.
    pub(crate) by: u64,
}

/// A frame that was sent.
#[derive(Clone, Copy)]
struct SentFrame<'f> {
    frame: CapturedFrame<'f>,
    core: FrameCore<'f>,
}

/// The core of a captured frame.
fn core_in<'f>(frame: &CapturedFrame<'f>, settings: &RecordSettings<'_>) -> FrameCore<'f> {
    core_of(settings.tpids, settings.padded, frame.extent, frame.bytes)
}

/// The frames that were sent, found by their cores.
#[derive(Drop)]
struct SentFrames<'f> {
    // In order of time.
    frames: Vec<SentFrame<'f>>,
    // The places of those of a key, in order.
    queues: HashMap<CoreKey<'f>, Vec<usize>>,
    // How many bytes behind the tags are known of every front.
    shortest: usize,
}

/// Whether a frame is known by its bytes.
fn is_known(frame: &CapturedFrame<'_>) -> bool {
    frame.extent == Extent::Whole || frame.bytes.len() >= SHORTEST_FRONT
}

/// The frame that stands somewhere in captures.
pub(crate) fn frame_at<'f>(captures: &[Capture<'f>], source: Source) -> Option<CapturedFrame<'f>> {
    let capture = captures.get(source.capture)?;
    let frame = capture.frames.get(source.place.checked_sub(1)?)?;
    Some(*frame)
}

/// Adds the frames of a capture that were sent.
fn add_sent<'f>(
    frames: &mut Vec<SentFrame<'f>>,
    capture: &Capture<'f>,
    settings: &RecordSettings<'_>,
) -> Result<(), AllocError> {
    for frame in capture.frames {
        if matches!(frame.tap, Tap::Into { .. }) && is_known(frame) {
            frames.push(SentFrame {
                frame: *frame,
                core: core_in(frame, settings),
            })?;
        }
    }
    Ok(())
}

/// The frames that were sent, in order of time.
fn sent_in_order<'f>(
    alloc: Global,
    captures: &[Capture<'f>],
    settings: &RecordSettings<'_>,
) -> Result<Vec<SentFrame<'f>>, AllocError> {
    let mut frames = Vec::new(alloc);
    for capture in captures {
        add_sent(&mut frames, capture, settings)?;
    }
    frames.sort_by_key(|sent| sent.frame.time)?;
    Ok(frames)
}

impl<'f> SentFrames<'f> {
    /// The frames that were sent by captures, where of every front so many bytes behind the tags are known.
    fn new(alloc: Global, frames: Vec<SentFrame<'f>>, shortest: usize) -> Result<Self, AllocError> {
        let mut queues: HashMap<CoreKey<'f>, Vec<usize>> = HashMap::new(alloc);
        for (place, frame) in frames.iter().enumerate() {
            let key = frame.core.key(shortest);
            if let Some(queue) = queues.get_mut(&key) {
                queue.push(place)?;
                continue;
            }
            let mut queue = Vec::new(alloc);
            queue.push(place)?;
            queues.insert(key, queue)?;
        }
        Ok(SentFrames {
            frames,
            queues,
            shortest,
        })
    }

    /// When the first frame was sent that may be one of a core.
    fn first_time(&self, core: &FrameCore<'f>) -> Option<u64> {
        let queue = self.queues.get(&core.key(self.shortest))?;
        for place in queue {
            if let Some(sent) = self.frames.get(*place)
                && sent.core.agrees(core)
            {
                return Some(sent.frame.time);
            }
        }
        None
    }

    /// How long before the first of its core was sent a frame left, if that was soon after.
    fn ahead_by(&self, frame: &CapturedFrame<'f>, settings: &RecordSettings<'_>) -> Option<u64> {
        let first = self.first_time(&core_in(frame, settings))?;
        match first.checked_sub(frame.time) {
            Some(by) if by > 0 && by <= SOON => Some(by),
            _ => None,
        }
    }
}

/// Those of some frames that left which did before any of their core was sent, and soon before one.
pub(crate) fn frames_ahead(
    alloc: Global,
    captures: &[Capture<'_>],
    settings: &RecordSettings<'_>,
    left: &[Source],
) -> Result<Vec<Ahead>, AllocError> {
    let mut ahead = Vec::new(alloc);
    if left.is_empty() {
        return Ok(ahead);
    }
    let frames = sent_in_order(alloc, captures, settings)?;
    let mut shortest = usize::MAX;
    for sent in &frames {
        shortest = shortest_with(shortest, &sent.frame, settings);
    }
    for source in left {
        if let Some(frame) = frame_at(captures, *source) {
            shortest = shortest_with(shortest, &frame, settings);
        }
    }
    let sent = SentFrames::new(alloc, frames, shortest)?;
    for source in left {
        if let Some(frame) = frame_at(captures, *source)
            && let Some(by) = sent.ahead_by(&frame, settings)
        {
            ahead.push(Ahead {
                source: *source,
                by,
            })?;
        }
    }
    Ok(ahead)
}
