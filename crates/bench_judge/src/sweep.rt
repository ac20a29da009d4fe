//! The least versions of frames, found once through all versions. Each port has a queue of its ended frames, in order: only the one at
//! its head may be given the version that is tried, and then the next one comes to the head.
ghost use Rattle.std.specs.Prelude.{◌≡◌, ◌<◌, ◌||◌, Bool, List, Some, true, Decides, IfOk, MatchBool, suc, is_some, length, nat_le, slice_get, take};
ghost use Rattle.omci_msg.specs.declared.request.Request.{Request as TheRequest};
ghost use Rattle.mib_state.specs.After.{after};
ghost use Rattle.forward_plan.specs.Ports.{port_count};
ghost use Rattle.bench_judge.specs.Frames.{AreWithin, MayHave};
ghost use Rattle.bench_judge.specs.Known.{AreHeld};
ghost use Rattle.bench_history.specs.declared.event.Event.{Event as TheEvent};
ghost use Rattle.bench_judge.specs.Cut.{IsSwept};
ghost use Rattle.bench_judge.specs.Sweep.{AreQueuedSoFar, IsSoFar, IsWhole, NoneFit};
ghost use Rattle.bench_judge.specs.declared.frame.Frame.{Frame as TheFrame};

use crate::frame::{Case, Frame};
use crate::seeing::is_seen;
use crate::watch::{Stage, Watch};
use bench_history::Event;
use bench_sight::Buffers;
use forward_plan::{Live, PORTS};
use omci_msg::Request;
use std::alloc::{AllocError, Global};

/// The queues of frames, and the versions that were found so far.
#[derive(Drop)]
pub(crate) struct SweepState {
    // Behind each ended frame, by its number, the next of its queue, or what is no number of a frame.
    pub(crate) next: Vec<usize>,
    // For each queue the frame at its head, or what is no number of a frame.
    pub(crate) waiting: Vec<usize>,
    // The version of each frame, by its number. It is 0 as long as none is found.
    pub(crate) versions: Vec<usize>,
    buffers: Buffers,
}

/// Whether a frame may have a version, by the entities of that version.
pub(crate) fn may_have_by(
    live: &Live,
    padded: bool,
    events: &[Event<'_>],
    frame: &Frame,
    version: usize,
    buffers: &mut Buffers,
) -> bool
    ensures { (requests : List TheRequest) → live.now ≡ after (take version requests)
        → Decides result (MayHave padded events.now requests frame.now version) }
{
    frame.least <= version && version <= frame.most && is_seen(live, padded, events, frame, buffers)
}

/// Whether the frame of a number may have a version, by what is known or by the entities of that version.
fn may_have(
    live: &Live,
    case: &Case<'_, '_>,
    number: usize,
    frame: &Frame,
    version: usize,
    buffers: &mut Buffers,
) -> bool
    requires { AreHeld case.now.padded case.now.events.now case.now.requests.now
        case.now.frames.now case.now.known.now }
    ensures { live.now ≡ after (take version case.now.requests.now)
        → slice_get case.now.frames.now number ≡ Some frame.now
        → Decides result (MayHave case.now.padded case.now.events.now case.now.requests.now frame.now version) }
{
    match case.known.version_of(number, frame) {
        Some(known) if known == version => true,
        _ => may_have_by(live, case.padded, case.events, frame, version, buffers),
    }
}

/// Gives the frames at the head of a queue a version, one after the other, as long as they may have it. Whether the frame that is at the
/// head then, if there is one, may have a greater one by its window.
fn settle(
    live: &Live,
    case: &Case<'_, '_>,
    sweep: &mut SweepState,
    slot: usize,
    version: usize,
) -> bool
    requires slot { slot < length sweep.old.waiting.items }
    requires whole { IsWhole case.now.frames.now sweep.old }
    requires known { AreHeld case.now.padded case.now.events.now case.now.requests.now
        case.now.frames.now case.now.known.now }
    ensures whole { IsWhole case.now.frames.now sweep.new }
    ensures slots { length sweep.new.waiting.items ≡ length sweep.old.waiting.items }
    ensures so_far { live.now ≡ after (take version case.now.requests.now)
        → IsSoFar case.now.padded case.now.unordered case.now.events.now case.now.requests.now
        case.now.frames.now version slot sweep.old
        → MatchBool result
        (IsSoFar case.now.padded case.now.unordered case.now.events.now case.now.requests.now
        case.now.frames.now version (suc slot) sweep.new)
        (NoneFit case.now.padded case.now.unordered case.now.events.now case.now.requests.now
        case.now.frames.now) }
{
    'each_head: while let Some(frame) = case.frames.get(sweep.waiting[slot]) {
        let number = sweep.waiting[slot];
        if !may_have(live, case, number, frame, version, &mut sweep.buffers) {
            return version < frame.most;
        }
        sweep.versions[number] = version;
        sweep.waiting[slot] = sweep.next[number];
    }
    true
}

/// The greatest place of an end among a frame and those before it in its queue, if that is before a hint; else the hint.
fn earlier(case: &Case<'_, '_>, number: usize, hint: usize) -> usize {
    let Some(frame) = case.frames.get(number) else {
        return hint;
    };
    let mut last = frame.ended.unwrap_or(hint);
    if case.unordered || last >= hint {
        return last.min(hint);
    }
    for before in &case.frames[..number] {
        if before.port == frame.port {
            last = last.max(before.ended.unwrap_or(0));
        }
    }
    last.min(hint)
}

/// Tries a version at each queue. False if some head can't take a later version: then the hint is the least place up to which the frames of
/// such a queue have ended, where that is before it.
fn settle_all(
    live: &Live,
    case: &Case<'_, '_>,
    sweep: &mut SweepState,
    version: usize,
    hint: &mut usize,
) -> bool
    requires whole { IsWhole case.now.frames.now sweep.old }
    requires known { AreHeld case.now.padded case.now.events.now case.now.requests.now
        case.now.frames.now case.now.known.now }
    ensures whole { IsWhole case.now.frames.now sweep.new }
    ensures so_far { live.now ≡ after (take version case.now.requests.now)
        → IsSoFar case.now.padded case.now.unordered case.now.events.now case.now.requests.now
        case.now.frames.now version 0 sweep.old
        → MatchBool result
        (IsSoFar case.now.padded case.now.unordered case.now.events.now case.now.requests.now
        case.now.frames.now version (length sweep.new.waiting.items) sweep.new)
        (NoneFit case.now.padded case.now.unordered case.now.events.now case.now.requests.now
        case.now.frames.now) }
{
    let mut all = true;
    for slot in 0..sweep.waiting.len() {
        let is_settled = settle(live, case, sweep, slot, version);
        if !is_settled {
            *hint = earlier(case, sweep.waiting[slot], *hint);
        }
        all &= is_settled;
    }
    all
}

/// Whether a frame begins a queue, by the last frame of its port before it, or what is no number of one.
fn begins_queue(tail: usize, number: usize, unordered: bool) -> bool
    ensures { result ≡ (unordered || nat_le number tail) }
{
    unordered || tail >= number
}

/// Puts an ended frame behind the last one of its queue, or at the head of a new one.
fn enqueue(
    sweep: &mut SweepState,
    tails: &mut Vec<usize>,
    number: usize,
    port: u16,
    unordered: bool,
) -> Result<(), AllocError>
    requires tails { length tails.old.items ≡ port_count }
    requires links { number < length sweep.old.next.items }
    ensures tails { length tails.new.items ≡ port_count }
    ensures links { length sweep.new.next.items ≡ length sweep.old.next.items }
    ensures versions { sweep.new.versions.items ≡ sweep.old.versions.items }
    ensures queued { (frames : List TheFrame) (frame : TheFrame)
        → slice_get frames number ≡ Some frame → is_some frame.ended ≡ true → frame.port ≡ port
        → length sweep.old.next.items ≡ length frames
        → AreQueuedSoFar unordered frames number tails.old.items sweep.old
        → IfOk result (λ _.
        AreQueuedSoFar unordered frames (suc number) tails.new.items sweep.new) }
{
    let port = usize::from(port);
    let tail = tails[port];
    if begins_queue(tail, number, unordered) {
        sweep.waiting.push(number)?;
    } else {
        sweep.next[tail] = number;
    }
    tails[port] = number;
    Ok(())
}

/// The queues of frames: one for each port, or for each frame where order doesn't count.
fn queues(alloc: Global, frames: &[Frame], unordered: bool) -> Result<SweepState, AllocError>
    ensures whole { IfOk result (IsWhole frames.now) }
    ensures so_far { IfOk result (λ sweep. (padded : Bool) (events : List TheEvent) (requests : List TheRequest)
        → IsSoFar padded unordered events requests frames.now 0 0 sweep) }
{
    let none = frames.len();
    let mut tails = vec![in alloc; none; PORTS]?;
    let mut sweep = SweepState {
        next: vec![in alloc; none; none]?,
        waiting: Vec::new(alloc),
        versions: vec![in alloc; 0; none]?,
        buffers: Buffers::new(),
    };
    for (number, frame) in frames.iter().enumerate() {
        if frame.ended.is_some() {
            enqueue(&mut sweep, &mut tails, number, frame.port, unordered)?;
        }
    }
    Ok(sweep)
}

/// The least version of each frame, by its number, where all can be had together; of one that is open it is 0. None where they can't:
/// then the hint is the place of an event that leaves none, and mostly of the first.
///
/// It takes time in proportion to the frames, the versions and, for each version, the queues, and memory in proportion to the frames.
pub(crate) fn sweep<W: Watch>(
    alloc: Global,
    case: &Case<'_, '_>,
    hint: &mut usize,
    watch: &mut W,
) -> Result<Option<Vec<usize>>, AllocError>
    requires within { AreWithin case.now.requests.now case.now.frames.now }
    requires known { AreHeld case.now.padded case.now.events.now case.now.requests.now
        case.now.frames.now case.now.known.now }
    ensures { IfOk result (IsSwept case.now.padded case.now.unordered case.now.events.now
        case.now.requests.now case.now.frames.now) }
{
    let mut live = Live::new(alloc)?;
    let mut sweep = queues(alloc, case.frames, case.unordered)?;
    if !settle_all(&live, case, &mut sweep, 0, hint) {
        return Ok(None);
    }
    for (before, request) in case.requests.iter().enumerate() {
        watch.reached(Stage::Sweeping {
            versions: before + 1,
            of: case.requests.len(),
        });
        live.apply(request);
        if !settle_all(&live, case, &mut sweep, before + 1, hint) {
            return Ok(None);
        }
    }
    let SweepState {
        next: _,
        waiting: _,
        versions,
        buffers: _,
    } = sweep;
    Ok(Some(versions))
}
