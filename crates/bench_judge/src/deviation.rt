//! What is said of the first line that isn't explained.
ghost use Rattle.std.specs.Prelude.{◌≡◌, ◌<◌, ℕ, Contains, List, Some, true, IfOk, length, map, slice_get, take};
ghost use Rattle.bench_history.specs.History.{is_end_of};
ghost use Rattle.bench_history.specs.declared.event.Event.TheVariants.{Entered, Replied};
ghost use Rattle.bench_judge.specs.Cut.{IsSomeWalk, IsTurn};
ghost use Rattle.bench_history.specs.declared.extent.Extent.{Extent as TheExtent};
ghost use Rattle.bench_judge.specs.Known.{IsKnown};
ghost use Rattle.bench_judge.specs.Judged.{IsCandidate, IsEndAs, IsWrongAt, IsWrongFrame};
ghost use Rattle.bench_judge.specs.Terms.{Terms as TheTerms, ground_in, terms_of};
ghost use Rattle.bench_judge.specs.declared.judgement.Candidate.{Candidate as TheCandidate};
ghost use Rattle.bench_judge.specs.Walk.{AreSound, IsWalk};

use crate::bounds::{at_least, at_most};
use crate::cut::frames_until;
use crate::fitting::versions_of;
use crate::frame::Case;
use crate::judgement::{Candidate, End, Wrong, WrongFrame, WrongOneOf, WrongReply};
use crate::known::Known;
use crate::runs::runs;
use crate::terms::Terms;
use crate::walk::Walk;
use crate::watch::Nobody;
use bench_history::{Among, Digits, Event, Extent};
use script_lines::MOST_SPELLED;
use std::alloc::{AllocError, Global};

/// The number of the frame that an event ends.
fn ended_by(event: &Event<'_>) -> usize
    requires { (n : ℕ) × (is_end_of n event.now ≡ true) }
    ensures { is_end_of result event.now ≡ true }
{
    match event {
        Event::Left { number, .. } | Event::Dropped { number } | Event::Lost { number } => {
            *number as usize
        }
        _ => unreachable!(),
    }
}

/// How an event ends a frame.
fn end_of<'a>(event: &Event<'a>) -> End<'a>
    requires { (n : ℕ) × (is_end_of n event.now ≡ true) }
    ensures { IsEndAs event.now result }
{
    match event {
        Event::Left {
            gem,
            extent,
            frame,
            ..
        } => End::Left {
            gem: *gem,
            extent: *extent,
            frame: frame.copied(),
        },
        Event::Dropped { .. } => End::Dropped,
        Event::Lost { .. } => End::Lost,
        _ => unreachable!(),
    }
}

/// The frame that an event sends, and how much of it is known.
fn sent_by<'a>(event: &Event<'a>) -> (Extent, Digits<'a>)
    requires { (port : ℕ) × (extent : TheExtent) × (bytes : List ℕ) × (event.now ≡ Entered port extent bytes) }
    ensures { (port : ℕ) (extent : TheExtent) (bytes : List ℕ) → event.now ≡ Entered port extent bytes
        → result ≡ (extent, bytes) }
{
    match event {
        Event::Entered { extent, frame, .. } => (*extent, frame.copied()),
        _ => unreachable!(),
    }
}

/// What is said of the frame that ends at a place, where the events before it have a choice of versions, and none with the one there; and
/// such a choice.
pub(crate) fn wrong_frame<'a>(
    alloc: Global,
    events: &[Event<'a>],
    walk: &Walk,
    terms: &Terms<'_>,
    known: &Known,
    place: usize,
) -> Result<(WrongFrame<'a>, Vec<usize>), AllocError>
    requires sound { AreSound events.now }
    requires walked { IsWalk (terms_of terms.now) events.now walk.now }
    requires within { place < walk.now.walked }
    requires turn { IsTurn (ground_in (terms_of terms.now)) terms.now.settings.padded
        terms.now.settings.unordered events.now place }
    requires known { IsKnown (terms_of terms.now) events.now known.now }
    ensures frame { IfOk result (λ found. IsWrongFrame (terms_of terms.now) events.now place found.0) }
    ensures versions { IfOk result (λ found. IsKnown (terms_of terms.now) events.now (record {
      until = place;
      versions = found.1;
    })) }
{
    let number = ended_by(&events[place]);
    let frame = walk.frames[number];
    let frames = frames_until(alloc, &walk.frames, place)?;
    let case = Case {
        events,
        requests: &walk.requests,
        frames: &frames,
        known,
        padded: terms.settings.padded,
        unordered: terms.settings.unordered,
    };
    let Some(versions) = versions_of(alloc, &case, &mut 0, &mut Nobody)? else {
        unreachable!();
    };
    let at_least = at_least(&case, &versions, &frame, number);
    let at_most = at_most(alloc, &case, &versions, &frame, number)?;
    let (extent, sent) = sent_by(&events[frame.sent]);
    let mut buffer = [0; MOST_SPELLED];
    let bytes = sent.read(&mut buffer);
    let base = walk.base;
    let from = at_least.saturating_sub(base);
    let to = at_most.saturating_sub(base);
    let runs = runs(alloc, &walk.requests, base, frame.port, bytes, from, to)?;
    let wrong = WrongFrame {
        number,
        port: frame.port,
        sent_line: frame.sent + 1,
        extent,
        sent,
        seen: end_of(&events[place]),
        at_least: from,
        at_most: to,
        runs,
    };
    Ok((wrong, versions))
}

/// What is said of a wrong reply, which comes behind the events that were walked.
fn wrong_reply<'a>(
    events: &[Event<'_>],
    walk: Walk,
    terms: &Terms<'_>,
    reply: Digits<'a>,
) -> Wrong<'a>
    requires walked { IsWalk (terms_of terms.now) events.now walk }
    requires within { walk.walked < length events.now }
    requires replied { slice_get events.now walk.walked ≡ Some (Replied reply) }
    ensures { IsWrongAt (terms_of terms.now) events.now walk.walked result }
{
    match walk.awaited {
        Some(awaited) => Wrong::Reply(WrongReply {
            request_line: awaited.sent + 1,
            reply,
            model: awaited.reply,
        }),
        None => Wrong::Unasked { reply },
    }
}

/// What is said of the frame of a number, which one that left behind the events that were walked may be.
fn candidate<'a>(
    alloc: Global,
    events: &[Event<'a>],
    walk: &Walk,
    number: usize,
) -> Result<Candidate<'a>, AllocError>
    requires walked { IsSomeWalk events.now walk.now }
    requires known { number < length walk.now.frames.items }
    ensures number { IfOk result (λ c. c.number ≡ number) }
    ensures is { (terms : TheTerms) → IsWalk terms events.now walk.now
        → IfOk result (IsCandidate (ground_in terms) (take walk.now.walked events.now)) }
{
    let frame = walk.frames[number];
    let (extent, sent) = sent_by(&events[frame.sent]);
    let mut buffer = [0; MOST_SPELLED];
    let bytes = sent.read(&mut buffer);
    let base = walk.base;
    let from = frame.least.saturating_sub(base);
    let to = walk.requests.len().saturating_sub(base);
    let runs = runs(alloc, &walk.requests, base, frame.port, bytes, from, to)?;
    Ok(Candidate {
        number,
        port: frame.port,
        sent_line: frame.sent + 1,
        extent,
        sent,
        at_least: from,
        at_most: to,
        runs,
    })
}

/// What is said of the frames of which one left.
fn candidates<'a>(
    alloc: Global,
    events: &[Event<'a>],
    walk: &Walk,
    among: &Among<'_>,
) -> Result<Vec<Candidate<'a>>, AllocError>
    requires walked { IsSomeWalk events.now walk.now }
    requires known { (n : ℕ) → Contains among.now.numbers n → n < length walk.now.frames.items }
    ensures numbers { IfOk result (λ all. map (λ c. c.number) all.items ≡ among.now.numbers) }
    ensures each { (terms : TheTerms) → IsWalk terms events.now walk.now
        → IfOk result (λ all. (k : ℕ) (c : TheCandidate) → slice_get all.items k ≡ Some c
        → IsCandidate (ground_in terms) (take walk.now.walked events.now) c) }
{
    let mut numbers = among.numbers();
    let mut all = Vec::new(alloc);
    'each_number: while let Some(number) = numbers.take_least() {
        all.push(candidate(alloc, events, walk, number as usize)?)?;
    }
    Ok(all)
}

/// What is said of the event behind those that were walked, which isn't admitted.
pub(crate) fn wrong_event<'a>(
    alloc: Global,
    events: &[Event<'a>],
    walk: Walk,
    terms: &Terms<'_>,
) -> Result<Wrong<'a>, AllocError>
    requires sound { AreSound events.now }
    requires walked { IsWalk (terms_of terms.now) events.now walk }
    requires within { walk.walked < length events.now }
    ensures { IfOk result (IsWrongAt (terms_of terms.now) events.now walk.walked) }
{
    match &events[walk.walked] {
        Event::Replied { reply } => Ok(wrong_reply(events, walk, terms, reply.copied())),
        Event::Strayed { gem, extent, frame } => Ok(Wrong::Stray {
            gem: *gem,
            extent: *extent,
            frame: frame.copied(),
        }),
        Event::LeftOneOf { gem, extent, among } => Ok(Wrong::OneOf(WrongOneOf {
            gem: *gem,
            extent: *extent,
            frame: among.frame(),
            candidates: candidates(alloc, events, &walk, among)?,
        })),
        _ => unreachable!(),
    }
}
