//! The history that captures show.
ghost use Rattle.std.specs.Prelude.{◌≡◌, ◌≤◌, ◌++◌, ℕ, List, IfOk, map, true};
ghost use Rattle.std.specs.List.{list_all};
ghost use Rattle.std.specs.List.Sorted.{IsNonDecreasingBy};
ghost use Rattle.bench_record.specs.Index.{HasNumbers, IsSeen, is_long, passed_shown, shorter};
ghost use Rattle.bench_record.specs.Messages.{message_of};
ghost use Rattle.bench_record.specs.Moments.{moment_of, moment_of_frame, rank_of_message};
ghost use Rattle.bench_record.specs.Order.{in_order};
ghost use Rattle.bench_record.specs.Recorded.{core_in, frames_from, history_shown, nothing_seen, seen_from, sourced_from};
ghost use Rattle.bench_record.specs.Spans.{AreSpans};
ghost use Rattle.bench_record.specs.Text.{timed_shown};
ghost use Rattle.bench_record.specs.Walk.{sourced_shown};
ghost use Rattle.bench_record.specs.declared.captured.Capture.{Capture as TheCapture};
ghost use Rattle.bench_record.specs.declared.walk.Sourced.{Sourced as TheSourced};

use crate::captured::{Capture, CapturedFrame, Source, Tap};
use crate::event::TimedEvent;
use crate::frame_core::core_of;
use crate::message::{is_reply, read_message};
use crate::passed::Passed;
use crate::settings::RecordSettings;
use crate::spans::spans_of;
use crate::walk::{Given, Sourced, Walk};
use bench_history::Extent;
use std::alloc::{AllocError, Global};

/// The history that captures show.
#[derive(Drop)]
pub struct Recording<'a> {
    /// Its events, in order.
    pub events: Vec<TimedEvent<'a>>,
    /// Which captured frames have no event.
    pub passed: Passed,
}

/// Where the event of a message stands among those of one time.
fn rank_of_message(frame: &[u8]) -> u8
    ensures { result ≡ rank_of_message (message_of frame.now) }
{
    match read_message(frame) {
        Some(message) if is_reply(message) => 2,
        _ => 0,
    }
}

/// Where what a captured frame shows stands among events of all times.
fn moment(at: &Sourced<'_>) -> u128
    ensures { result ≡ moment_of_frame (sourced_shown at.now) }
{
    let rank = match at.frame.tap {
        Tap::Omci => rank_of_message(at.frame.bytes),
        Tap::Into { .. } => 1,
        Tap::OutOf { .. } => 4,
    };
    8 * u128::from(at.frame.time) + u128::from(rank)
}

/// Puts the frames of a capture of a number behind others.
fn add_frames<'a>(
    frames: &mut Vec<Sourced<'a>>,
    number: usize,
    capture: &Capture<'a>,
) -> Result<(), AllocError>
    ensures { IfOk result (λ _. map sourced_shown frames.new.items
        ≡ map sourced_shown frames.old.items ++ sourced_from number 1 capture.now.frames.now) }
{
    for (place, frame) in capture.frames.iter().enumerate() {
        frames.push(Sourced {
            source: Source {
                capture: number,
                place: place + 1,
            },
            frame: *frame,
        })?;
    }
    Ok(())
}

/// The frames of captures, those of one behind those of the captures before it.
fn frames_of<'a>(alloc: Global, captures: &[Capture<'a>]) -> Result<Vec<Sourced<'a>>, AllocError>
    ensures { IfOk result (λ frames. map sourced_shown frames.items ≡ frames_from 0 captures.now) }
{
    let mut frames = Vec::new(alloc);
    for (number, capture) in captures.iter().enumerate() {
        add_frames(&mut frames, number, capture)?;
    }
    Ok(frames)
}

/// The frames of captures in the order of what they show.
fn frames_in_order<'a>(
    alloc: Global,
    captures: &[Capture<'a>],
) -> Result<Vec<Sourced<'a>>, AllocError>
    ensures frames { IfOk result (λ sorted. map sourced_shown sorted.items
        ≡ in_order moment_of_frame (frames_from 0 captures.now)) }
    ensures sorted { IfOk result (λ sorted. IsNonDecreasingBy (λ
        (at : TheSourced). moment_of_frame (sourced_shown at)) sorted.items) }
{
    let mut frames = frames_of(alloc, captures)?;
    frames.sort_by_key(|at| moment(at))?;
    Ok(frames)
}

/// The less of a number and of how many bytes are known behind the tags of a frame, if it is a front. With all frames in turn it is what
/// [`key`](crate::FrameCore::key) asks for.
pub fn shortest_with(
    shortest: usize,
    frame: &CapturedFrame<'_>,
    settings: &RecordSettings<'_>,
) -> usize
    ensures is { result ≡ shorter shortest (core_in settings.now frame.now) }
    ensures shorter { result ≤ shortest }
    ensures long { is_long result (core_in settings.now frame.now) ≡ true }
{
    match frame.extent {
        Extent::Whole => shortest,
        Extent::Front => {
            let core = core_of(settings.tpids, settings.padded, frame.extent, frame.bytes);
            shortest.min(core.rest.len())
        }
    }
}

/// How many bytes are known behind the tags of each front, at least.
fn shortest_front(frames: &[Sourced<'_>], settings: &RecordSettings<'_>) -> usize
    ensures { list_all (λ (at : TheSourced). is_long result
        (core_in settings.now at.frame)) frames.now ≡ true }
{
    let mut shortest = usize::MAX;
    for at in frames {
        shortest = shortest_with(shortest, &at.frame, settings);
    }
    shortest
}

/// What is seen of captured frames that are in order.
fn walk_over<'a>(
    alloc: Global,
    frames: &[Sourced<'a>],
    given: &Given<'_>,
) -> Result<Walk<'a>, AllocError>
    requires rising { IsNonDecreasingBy (λ (at : TheSourced). at.frame.time) frames.now }
    requires spans { (captures : List TheCapture) × AreSpans captures given.now.spans.now }
    ensures seen { (captures : List TheCapture) → AreSpans captures given.now.spans.now
        → IfOk result (λ walk. (since : ℕ) × IsSeen given.now.settings.lost since
        (seen_from given.now.settings captures nothing_seen (map sourced_shown frames.now)) walk) }
    ensures numbers { IfOk result HasNumbers }
{
    let mut walk = Walk::new(alloc, shortest_front(frames, &given.settings));
    for at in frames {
        walk.see(given, at)?;
    }
    Ok(walk)
}

/// Puts events in the order in which they took place.
fn put_in_order(events: &mut Vec<TimedEvent<'_>>) -> Result<(), AllocError>
    ensures { IfOk result (λ _. map timed_shown events.new.items
        ≡ in_order moment_of (map timed_shown events.old.items)) }
{
    events.sort_by_key(|timed| timed.moment())?;
    Ok(())
}

/// The history that captures show. Their frames stand in any order; those of one time keep theirs.
///
/// A frame of the management channel holds a message behind the Ethertype 0x88B5: 48 bytes, or 44 where there are fewer than 48. With AK 0 it
/// was sent to the unit, with AK 1 it is a reply.
///
/// A frame that left may be each open frame of its core: one that was sent before or at that time, wasn't seen to leave, isn't past its time
/// and isn't used up. The core is the addresses and what stands behind all leading tags, which begin with 0x8100, 0x88A8 or a type of the
/// settings. A front is compared as far as it goes, and a frame that is known whole is longer than the front. Where one frame is open, it is
/// that one. Where several are, it is one of them, and these are doubtful from then on.
///
/// Where none is open it is a stray, unless its frame may have been sent unseen. That may be so up to the time at which a frame would be lost
/// that was sent with the first record of a capture in front of the unit, or with a record there that is passed over; where no loss is set,
/// up to the record's own time. Where there is no capture in front of the unit, or one without a record, it may always be so, and there are
/// no strays.
///
/// Where the settings say that frames were on their way as the captures in front of the unit began, what leaves up to that time is passed over,
/// whichever frame it could be. Every such capture counts, so one that begins late, or has no record, has all before it passed over. Where they say
/// that frames were sent behind the end of such a capture, what leaves from the last record of any of them on is passed over likewise.
///
/// With a wait in the settings, each reply is waited for so long behind its time.
///
/// With a loss in the settings, a frame isn't open any more so long behind its sending, but at that very time it still is. It is told as lost
/// then, where the captures behind the unit all go on from its sending to that time. Not told is a frame that was seen to leave or is
/// doubtful. Nor is one that may have left as a record behind the unit that is passed over: since too little is known of it, or since it may
/// be each of over 900 frames, or have been sent before captures began or behind their ends.
/// The loss has to be longer than the unit's longest delay, or a late frame is told as lost and as a stray.
///
/// At one time, events stand in this order: messages that were sent, frames that were sent, replies, waits, frames that left, losses.
///
/// It takes time in proportion to n log n for n frames, and to the open frames of a core for each that leaves; and memory in proportion to
/// their number. Err where there is no memory.
pub fn record_history<'a>(
    alloc: Global,
    captures: &[Capture<'a>],
    settings: &RecordSettings<'_>,
) -> Result<Recording<'a>, AllocError>
    ensures { IfOk result (λ recording. record {
      events = map timed_shown recording.events.items;
      passed = passed_shown recording.passed;
    } ≡ history_shown settings.now captures.now) }
{
    let frames = frames_in_order(alloc, captures)?;
    let spans = spans_of(alloc, captures)?;
    let given = Given {
        settings: *settings,
        spans: &spans,
    };
    let walk = walk_over(alloc, &frames, &given)?;
    let (mut events, passed) = walk.finish(&given)?;
    put_in_order(&mut events)?;
    Ok(Recording { events, passed })
}
