//! When captures begin and end.
ghost use Rattle.std.specs.Prelude.{◌≡◌, ◌&&◌, List, IfOk, map};
ghost use Rattle.std.specs.List.{list_all, list_any};
ghost use Rattle.bench_record.specs.Recorded.{is_behind, is_early, is_into_side, is_out_of_side, is_watched, latest};
ghost use Rattle.bench_record.specs.Spans.{AreSpans, IsWithin, is_begun, is_going_on, is_lasting, widened};
ghost use Rattle.bench_record.specs.declared.captured.Capture.{Capture as TheCapture};
ghost use Rattle.bench_record.specs.declared.spans.Span.{Span as TheSpan};

use crate::captured::{Capture, CapturedFrame, Side};
use crate::matching::later;
use std::alloc::{AllocError, Global};

/// The least and the greatest time of the frames of a capture; None where it has none.
#[derive(Clone, Copy)]
pub(crate) struct Span {
    pub(crate) side: Side,
    pub(crate) times: Option<(u64, u64)>,
}

/// The least and the greatest of times and of one more.
fn widened(times: Option<(u64, u64)>, time: u64) -> Option<(u64, u64)>
    ensures { result ≡ widened times time }
{
    match times {
        None => Some((time, time)),
        Some((least, greatest)) => Some((time.min(least), time.max(greatest))),
    }
}

/// The least and the greatest time of frames.
fn times_of(frames: &[CapturedFrame<'_>]) -> Option<(u64, u64)>
    ensures { IsWithin (map (λ frame. frame.time) frames.now) result }
{
    let mut times = None;
    for frame in frames {
        times = widened(times, frame.time);
    }
    times
}

/// The latest time at which a frame of an earlier one may leave, if that is known.
pub(crate) fn latest(lost: Option<u64>, time: u64) -> u64
    ensures { result ≡ latest lost time }
{
    match lost {
        Some(lost) => later(time, lost),
        None => time,
    }
}

impl Span {
    /// Whether the capture was taken in front of the unit.
    fn is_into(&self) -> bool
        ensures { result ≡ is_into_side self.now.side }
    {
        matches!(self.side, Side::Into)
    }

    /// Whether it was taken behind the unit.
    fn is_out_of(&self) -> bool
        ensures { result ≡ is_out_of_side self.now.side }
    {
        matches!(self.side, Side::OutOf)
    }

    /// Whether it had begun when a frame was sent that leaves at a time, or wasn't taken in front of the unit.
    fn is_begun(&self, lost: Option<u64>, time: u64) -> bool
        ensures { result ≡ is_begun lost time self.now }
    {
        match self.times {
            Some((least, _)) => !self.is_into() || latest(lost, least) < time,
            None => !self.is_into(),
        }
    }

    /// Whether it has a frame behind a time, or wasn't taken in front of the unit.
    fn is_lasting(&self, time: u64) -> bool
        ensures { result ≡ is_lasting time self.now }
    {
        match self.times {
            Some((_, greatest)) => !self.is_into() || time < greatest,
            None => !self.is_into(),
        }
    }

    /// Whether it goes on from a time until a frame that was sent then is lost, or wasn't taken behind the unit.
    fn is_going_on(&self, lost: u64, time: u64) -> bool
        ensures { result ≡ is_going_on lost time self.now }
    {
        match self.times {
            Some((least, greatest)) => {
                !self.is_out_of() || least <= time && later(time, lost) <= greatest
            }
            None => !self.is_out_of(),
        }
    }
}

/// When captures begin and end.
pub(crate) fn spans_of(alloc: Global, captures: &[Capture<'_>]) -> Result<Vec<Span>, AllocError>
    ensures { IfOk result (λ spans. AreSpans captures.now spans.items) }
{
    let mut spans = Vec::with_capacity(alloc, captures.len())?;
    for capture in captures {
        spans.push(Span {
            side: capture.side,
            times: times_of(capture.frames),
        })?;
    }
    Ok(spans)
}

/// Whether a capture was taken in front of the unit.
fn some_into(spans: &[Span]) -> bool
    ensures { result ≡ list_any (λ (span : TheSpan). is_into_side span.side) spans.now }
{
    spans.iter().any(|span| span.is_into())
}

/// Whether all captures in front of the unit had begun when a frame was sent that leaves at a time.
fn all_begun(spans: &[Span], lost: Option<u64>, time: u64) -> bool
    ensures { result ≡ list_all (is_begun lost time) spans.now }
{
    spans.iter().all(|span| span.is_begun(lost, time))
}

/// Whether all captures in front of the unit have a frame behind a time.
fn all_lasting(spans: &[Span], time: u64) -> bool
    ensures { result ≡ list_all (is_lasting time) spans.now }
{
    spans.iter().all(|span| span.is_lasting(time))
}

/// Whether a capture was taken behind the unit.
fn some_out_of(spans: &[Span]) -> bool
    ensures { result ≡ list_any (λ (span : TheSpan). is_out_of_side span.side) spans.now }
{
    spans.iter().any(|span| span.is_out_of())
}

/// Whether all captures behind the unit go on from a time until a frame that was sent then is lost.
fn all_going_on(spans: &[Span], lost: u64, time: u64) -> bool
    ensures { result ≡ list_all (is_going_on lost time) spans.now }
{
    spans.iter().all(|span| span.is_going_on(lost, time))
}

/// Whether there are captures in front of the unit, and all had begun.
fn are_begun(spans: &[Span], lost: Option<u64>, time: u64) -> bool
    ensures { result
        ≡ (list_any (λ (span : TheSpan). is_into_side span.side) spans.now
        && list_all (is_begun lost time) spans.now) }
{
    some_into(spans) && all_begun(spans, lost, time)
}

/// Whether there are captures behind the unit, and all go on.
fn are_watching(spans: &[Span], lost: u64, time: u64) -> bool
    ensures { result
        ≡ (list_any (λ (span : TheSpan). is_out_of_side span.side) spans.now
        && list_all (is_going_on lost time) spans.now) }
{
    some_out_of(spans) && all_going_on(spans, lost, time)
}

/// Whether a frame that leaves at a time may have been sent before the captures in front of the unit began, if there are any.
pub(crate) fn is_early(spans: &[Span], lost: Option<u64>, time: u64) -> bool
    ensures { (captures : List TheCapture) → AreSpans captures spans.now
        → result ≡ is_early lost captures time }
{
    let begun = are_begun(spans, lost, time);
    !begun
}

/// Whether a frame that leaves at a time may have been sent behind the end of a capture in front of the unit.
pub(crate) fn is_behind(spans: &[Span], time: u64) -> bool
    ensures { (captures : List TheCapture) → AreSpans captures spans.now → result ≡ is_behind captures time }
{
    let lasting = all_lasting(spans, time);
    !lasting
}

/// Whether a frame that is sent at a time would be captured when it leaves: all captures behind the unit go on until it is lost.
pub(crate) fn is_watched(spans: &[Span], lost: u64, time: u64) -> bool
    ensures { (captures : List TheCapture) → AreSpans captures spans.now
        → result ≡ is_watched lost captures time }
{
    are_watching(spans, lost, time)
}
