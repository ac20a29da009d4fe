//! Where events stop having a choice, and the greatest version that a frame may have: both found by halving.
ghost use Rattle.std.specs.Prelude.{◌≡◌, ◌≤◌, ◌<◌, ◌+◌, ℕ, Some, true, false, Decides, IfOk, is_some, length, slice_get, take};
ghost use Rattle.bench_judge.specs.Cut.{HasChoice, IsGreatestFit, IsTurn};
ghost use Rattle.bench_judge.specs.Frames.{AreWithin, Fits, FitsLeast};
ghost use Rattle.bench_judge.specs.Known.{IsKnown};
ghost use Rattle.bench_judge.specs.Terms.{ground_in, terms_of};
ghost use Rattle.bench_judge.specs.Walk.{IsWalk};
ghost use Rattle.bench_judge.specs.declared.frame.Frame.{Frame};

use crate::cut::choice_until;
use crate::frame::Case;
use crate::known::Known;
use crate::sweep::sweep;
use crate::terms::Terms;
use crate::walk::Walk;
use crate::watch::{Nobody, Stage, Watch};
use bench_history::Event;
use omci_msg::Request;
use std::alloc::{AllocError, Global};

/// How many places are tried by hints. Halving goes on behind them, so that wrong hints cost little.
const MOST_HINTED: usize = 32;

/// The place to try next between two: the one of a hint, or the one behind it once events have a choice up to there. Where the hint is of
/// no use, it is so many steps before the second place, and at most half of the way.
fn next_try(low: usize, high: usize, step: usize, hint: usize) -> usize
    requires apart { low + 1 < high }
    requires some { 0 < step }
    ensures { (low < result) × (result < high) }
{
    if low < hint && hint < high {
        return hint;
    }
    if hint == low {
        return low + 1;
    }
    high - step.min((high - low) / 2)
}

/// The place of the first event that leaves no choice, where all that were walked have none. A hint says where it may be: it costs two
/// tries where it is right, and has no part in the answer. Else the place is looked for from the end, by steps that double until events
/// have a choice, and then by halving: a history is mostly recorded until it deviates.
pub(crate) fn turn<W: Watch>(
    alloc: Global,
    events: &[Event<'_>],
    walk: &Walk,
    terms: &Terms<'_>,
    known: &Known,
    hint: usize,
    watch: &mut W,
) -> Result<usize, AllocError>
    requires walked { IsWalk (terms_of terms.now) events.now walk.now }
    requires known { IsKnown (terms_of terms.now) events.now known.now }
    requires none { ¬ (HasChoice (ground_in (terms_of terms.now)) terms.now.settings.padded
        terms.now.settings.unordered (take walk.now.walked events.now)) }
    ensures { IfOk result (λ place. (place < walk.now.walked)
        × IsTurn (ground_in (terms_of terms.now)) terms.now.settings.padded terms.now.settings.unordered
        events.now place) }
{
    let mut low = 0;
    let mut high = walk.walked;
    let mut step = 1;
    let mut hint = hint;
    let mut hinted = MOST_HINTED;
    while high - low > 1 {
        watch.reached(Stage::Halving { lines: high - low });
        let hinted_at = if hinted > 0 { hint } else { high };
        let middle = next_try(low, high, step, hinted_at);
        hinted = hinted.saturating_sub(1);
        let nobody = &mut Nobody;
        let found = choice_until(alloc, events, walk, terms, known, middle, &mut hint, nobody)?;
        if found.is_some() {
            low = middle;
        } else {
            step = 2 * (high - middle);
            high = middle;
        }
    }
    Ok(low)
}

/// Whether there are versions that fit, and of which that of a frame isn't under a bound.
fn fits_from(
    alloc: Global,
    case: &Case<'_, '_>,
    number: usize,
    from: usize,
) -> Result<bool, AllocError>
    requires within { AreWithin case.now.requests.now case.now.frames.now }
    requires held { (frame : Frame) × (slice_get case.now.frames.now number ≡ Some frame)
        × (is_some frame.ended ≡ true) × (frame.least ≤ from) }
    ensures { IfOk result (λ fits. Decides fits ((versions : ℕ → ℕ)
        × Fits case.now.padded case.now.unordered case.now.events.now case.now.requests.now
        case.now.frames.now versions
        × (from ≤ versions number))) }
{
    let mut frames = case.frames.to_vec(alloc)?;
    frames[number].least = from;
    let from = Case {
        events: case.events,
        requests: case.requests,
        frames: &frames,
        known: &Known::nothing(alloc),
        padded: case.padded,
        unordered: case.unordered,
    };
    Ok(sweep(alloc, &from, &mut 0, &mut Nobody)?.is_some())
}

/// The greatest version of an ended frame in all versions that fit, from one that it has in some.
pub(crate) fn greatest_version(
    alloc: Global,
    case: &Case<'_, '_>,
    number: usize,
    some: usize,
) -> Result<usize, AllocError>
    requires within { AreWithin case.now.requests.now case.now.frames.now }
    requires held { (frame : Frame) × (slice_get case.now.frames.now number ≡ Some frame)
        × (is_some frame.ended ≡ true) }
    requires fits { (versions : ℕ → ℕ)
        × Fits case.now.padded case.now.unordered case.now.events.now case.now.requests.now
        case.now.frames.now versions
        × (versions number ≡ some) }
    ensures { IfOk result (IsGreatestFit case.now.padded case.now.unordered case.now.events.now
        case.now.requests.now case.now.frames.now number) }
{
    let mut low = some;
    let mut high = case.frames[number].most + 1;
    while high - low > 1 {
        let middle = low + (high - low) / 2;
        if fits_from(alloc, case, number, middle)? {
            low = middle;
        } else {
            high = middle;
        }
    }
    Ok(low)
}
