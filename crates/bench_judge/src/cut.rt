//! What the events before a place show of frames and of their versions.
ghost use Rattle.std.specs.Prelude.{◌≡◌, ◌≤◌, IfOk, map, take};
ghost use Rattle.bench_judge.specs.Cut.{IsChosen, until};
ghost use Rattle.bench_judge.specs.Known.{IsKnown};
ghost use Rattle.bench_judge.specs.Terms.{ground_in, terms_of};
ghost use Rattle.bench_judge.specs.Walk.{IsWalk};

use crate::fitting::versions_of;
use crate::frame::{Case, Frame};
use crate::known::Known;
use crate::terms::Terms;
use crate::walk::Walk;
use crate::watch::Watch;
use bench_history::Event;
use std::alloc::{AllocError, Global};

/// A frame as the events before a place show it: open where it ends there or behind.
fn until(frame: &Frame, place: usize) -> Frame
    ensures { result ≡ until place frame.now }
{
    match frame.ended {
        Some(end) if end < place => *frame,
        _ => Frame {
            ended: None,
            most: 0,
            ..*frame
        },
    }
}

/// The same of each of some frames.
pub(crate) fn frames_until(
    alloc: Global,
    frames: &[Frame],
    place: usize,
) -> Result<Vec<Frame>, AllocError>
    ensures { IfOk result (λ cut. cut.items ≡ map (until place) frames.now) }
{
    let mut cut = Vec::with_capacity(alloc, frames.len())?;
    for frame in frames {
        cut.push(until(frame, place))?;
    }
    Ok(cut)
}

/// Versions that the frames of the events before a place may have together, by their numbers: the least where order counts, and else some.
/// None where these events have no choice: then the hint is the place of an event that leaves none, and mostly of the first.
pub(crate) fn choice_until<W: Watch>(
    alloc: Global,
    events: &[Event<'_>],
    walk: &Walk,
    terms: &Terms<'_>,
    known: &Known,
    place: usize,
    hint: &mut usize,
    watch: &mut W,
) -> Result<Option<Vec<usize>>, AllocError>
    requires walked { IsWalk (terms_of terms.now) events.now walk.now }
    requires known { IsKnown (terms_of terms.now) events.now known.now }
    requires within { place ≤ walk.now.walked }
    ensures { IfOk result (IsChosen (ground_in (terms_of terms.now)) terms.now.settings.padded
        terms.now.settings.unordered (take place events.now)) }
{
    let frames = frames_until(alloc, &walk.frames, place)?;
    let case = Case {
        events,
        requests: &walk.requests,
        frames: &frames,
        known,
        padded: terms.settings.padded,
        unordered: terms.settings.unordered,
    };
    versions_of(alloc, &case, hint, watch)
}
