//! Versions for frames, and how they are found where each frame is judged by itself. A unit seldom lags behind what it was told, so the
//! last version of a frame's window is tried first, and only for the frames that can't have that one all versions are gone through.
ghost use Rattle.std.specs.Prelude.{◌≡◌, ◌≤◌, true, IfOk, MatchOption, length, slice_index, take};
ghost use Rattle.mib_state.specs.After.{after};
ghost use Rattle.bench_judge.specs.Alone.{AreHad, AreJoined, IsLate, left_of, version_or};
ghost use Rattle.bench_judge.specs.Cut.{IsFitted};
ghost use Rattle.bench_judge.specs.Frames.{AreWithin, Fits};
ghost use Rattle.bench_judge.specs.Known.{AreHeld};
ghost use Rattle.bench_judge.specs.Sweep.{NoneFit};

use crate::frame::{Case, Frame};
use crate::known::Known;
use crate::sweep::{may_have_by, sweep};
use crate::watch::Watch;
use bench_history::Event;
use bench_sight::Buffers;
use forward_plan::Live;
use omci_msg::Request;
use std::alloc::{AllocError, Global};

/// The way through the versions along with the frames that end.
#[derive(Drop)]
pub(crate) struct Late {
    // The entities after so many requests.
    pub(crate) live: Live,
    pub(crate) applied: usize,
    // For each frame, by its number, the version that was found for it.
    pub(crate) found: Vec<Option<usize>>,
    buffers: Buffers,
}

/// Applies requests until so many are applied, where fewer were. How many are then.
pub(crate) fn advance(live: &mut Live, requests: &[Request], applied: usize, wanted: usize) -> usize
    requires { applied ≤ length requests.now }
    ensures within { result ≤ length requests.now }
    ensures live { live.old ≡ after (take applied requests.now)
        → live.new ≡ after (take result requests.now) }
{
    let mut applied = applied;
    while applied < wanted && applied < requests.len() {
        live.apply(&requests[applied]);
        applied += 1;
    }
    applied
}

/// Tries the version that is known of a frame, or else the last one of its window.
fn try_last(late: &mut Late, case: &Case<'_, '_>, number: usize)
    requires known { AreHeld case.now.padded case.now.events.now case.now.requests.now
        case.now.frames.now case.now.known.now }
    requires late { IsLate case.now.padded case.now.events.now case.now.requests.now case.now.frames.now late.old }
    ensures { IsLate case.now.padded case.now.events.now case.now.requests.now case.now.frames.now late.new }
{
    let Some(frame) = case.frames.get(number) else {
        return;
    };
    if let Some(version) = case.known.version_of(number, frame) {
        late.found[number] = Some(version);
        return;
    }
    late.applied = advance(&mut late.live, case.requests, late.applied, frame.most);
    if may_have_by(
        &late.live,
        case.padded,
        case.events,
        frame,
        late.applied,
        &mut late.buffers,
    ) {
        late.found[number] = Some(late.applied);
    }
}

/// The number of the frame that an event ends, if it ends one.
fn number_ended(event: &Event<'_>) -> Option<u32> {
    match event {
        Event::Left { number, .. } | Event::Dropped { number } | Event::Lost { number } => {
            Some(*number)
        }
        _ => None,
    }
}

/// For each frame, by its number, the last version of its window, if it may have that.
fn last_versions(alloc: Global, case: &Case<'_, '_>) -> Result<Vec<Option<usize>>, AllocError>
    requires { AreHeld case.now.padded case.now.events.now case.now.requests.now
        case.now.frames.now case.now.known.now }
    ensures count { IfOk result (λ found. length found.items ≡ length case.now.frames.now) }
    ensures had { IfOk result (λ found. AreHad case.now.padded case.now.events.now case.now.requests.now
        case.now.frames.now found.items) }
{
    let mut late = Late {
        live: Live::new(alloc)?,
        applied: 0,
        found: vec![in alloc; None; case.frames.len()]?,
        buffers: Buffers::new(),
    };
    for event in case.events {
        if let Some(number) = number_ended(event) {
            try_last(&mut late, case, number as usize);
        }
    }
    let Late {
        live: _,
        applied: _,
        found,
        buffers: _,
    } = late;
    Ok(found)
}

/// A frame, open if a version was found for it.
fn left_of(found: Option<usize>, frame: &Frame) -> Frame
    ensures { result ≡ left_of found frame.now }
{
    match found {
        Some(_) => Frame {
            ended: None,
            most: 0,
            ..*frame
        },
        None => *frame,
    }
}

/// Frames, of which those are open that a version was found for.
fn left_over(
    alloc: Global,
    frames: &[Frame],
    found: &[Option<usize>],
) -> Result<Vec<Frame>, AllocError>
    requires { length found.now ≡ length frames.now }
    ensures count { IfOk result (λ left. length left.items ≡ length frames.now) }
    ensures each { IfOk result (λ left. AreJoined left_of found.now frames.now left.items) }
{
    let mut left = Vec::with_capacity(alloc, frames.len())?;
    for number in 0..frames.len() {
        left.push(left_of(found[number], &frames[number]))?;
    }
    Ok(left)
}

/// The versions that were found, and others where none was.
fn all_versions(
    alloc: Global,
    others: &[usize],
    found: &[Option<usize>],
) -> Result<Vec<usize>, AllocError>
    requires { length found.now ≡ length others.now }
    ensures count { IfOk result (λ all. length all.items ≡ length others.now) }
    ensures each { IfOk result (λ all. AreJoined version_or found.now others.now all.items) }
{
    let mut all = Vec::with_capacity(alloc, others.len())?;
    for number in 0..others.len() {
        all.push(found[number].unwrap_or(others[number]))?;
    }
    Ok(all)
}

/// A version for each frame that it may have, by its number, where each is judged by itself. None where one may have none: then
/// the hint is the place of its end.
///
/// It takes time in proportion to the events and the versions, and once more to the versions for each frame that may not have the last one
/// of its window.
pub(crate) fn versions_alone<W: Watch>(
    alloc: Global,
    case: &Case<'_, '_>,
    hint: &mut usize,
    watch: &mut W,
) -> Result<Option<Vec<usize>>, AllocError>
    requires within { AreWithin case.now.requests.now case.now.frames.now }
    requires known { AreHeld case.now.padded case.now.events.now case.now.requests.now
        case.now.frames.now case.now.known.now }
    ensures { IfOk result (λ found. MatchOption found
        (NoneFit case.now.padded true case.now.events.now case.now.requests.now case.now.frames.now)
        (λ versions. Fits case.now.padded true case.now.events.now case.now.requests.now case.now.frames.now
        (slice_index versions.items))) }
{
    let found = last_versions(alloc, case)?;
    let left = left_over(alloc, case.frames, &found)?;
    let behind = Case {
        events: case.events,
        requests: case.requests,
        frames: &left,
        known: &Known::nothing(alloc),
        padded: case.padded,
        unordered: true,
    };
    match sweep(alloc, &behind, hint, watch)? {
        Some(others) => Ok(Some(all_versions(alloc, &others, &found)?)),
        None => Ok(None),
    }
}

/// Versions that frames may have together, by their numbers: the least where order counts, and else some. None where they can have none:
/// then the hint is the place of an event that leaves none, and mostly of the first.
pub(crate) fn versions_of<W: Watch>(
    alloc: Global,
    case: &Case<'_, '_>,
    hint: &mut usize,
    watch: &mut W,
) -> Result<Option<Vec<usize>>, AllocError>
    requires within { AreWithin case.now.requests.now case.now.frames.now }
    requires known { AreHeld case.now.padded case.now.events.now case.now.requests.now
        case.now.frames.now case.now.known.now }
    ensures { IfOk result (IsFitted case.now.padded case.now.unordered case.now.events.now case.now.requests.now
        case.now.frames.now) }
{
    if case.unordered {
        return versions_alone(alloc, case, hint, watch);
    }
    sweep(alloc, case, hint, watch)
}
