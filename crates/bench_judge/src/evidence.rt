//! What of a history was judged, and whether it was observed to its end.
ghost use Rattle.std.specs.Prelude.{◌≡◌, Decides, List, is_some, length};
ghost use Rattle.bench_answers.specs.Ground.{Ground};
ghost use Rattle.bench_answers.specs.Standing.{compared as compared_in};
ghost use Rattle.std.specs.List.{list_all, list_any};
ghost use Rattle.bench_history.specs.History.{frames_in, is_ended};
ghost use Rattle.bench_history.specs.declared.event.Event.{Event as TheEvent};
ghost use Rattle.bench_judge.specs.Counted.{AreKnown, is_known_in};
ghost use Rattle.bench_judge.specs.Evidence.{HasJudged, HasJudgedDoubt, IsEvidence, IsKnownDoubt};
ghost use Rattle.bench_judge.specs.Frames.{AreFrames};

use crate::counts::is_known_in;
use crate::frame::Frame;
use crate::judgement::{Evidence, Explanation};
use bench_history::{Among, Event};

/// Whether a line ends the observation.
pub(crate) fn is_finished(events: &[Event<'_>]) -> bool
    ensures { result ≡ is_ended events.now }
{
    events.iter().any(|event| matches!(event, Event::Ended))
}

/// Whether one of the frames has ended and is judged.
fn has_judged_end(frames: &[Frame]) -> bool
    ensures { result ≡ list_any (λ f. is_some f.ended) frames.now }
{
    frames.iter().any(|frame| frame.ended.is_some())
}

/// Whether enough is known of each of the frames of which one left.
fn are_known(frames: &[Frame], among: &Among<'_>) -> bool
    ensures { result ≡ list_all (is_known_in frames.now) among.now.numbers }
{
    let mut numbers = among.numbers();
    'each_number: while let Some(number) = numbers.take_least() {
        if !is_known_in(frames, number) {
            return false;
        }
    }
    true
}

/// Whether an event says of several frames that one left, of each of which enough is known.
fn is_known_doubt(event: &Event<'_>, frames: &[Frame]) -> bool
    ensures { (events : List TheEvent) → AreKnown events frames.now
        → Decides result (IsKnownDoubt events event.now) }
{
    match event {
        Event::LeftOneOf { among, .. } => are_known(frames, among),
        _ => false,
    }
}

/// Whether one of the events does.
fn has_known_doubt(events: &[Event<'_>], frames: &[Frame]) -> bool
    requires { AreKnown events.now frames.now }
    ensures { Decides result (HasJudgedDoubt events.now) }
{
    for event in events {
        if is_known_doubt(event, frames) {
            return true;
        }
    }
    false
}

/// Whether a frame of events was judged: one that has ended, or one of several that left. These are their frames.
fn has_judged(events: &[Event<'_>], frames: &[Frame]) -> bool
    requires known { AreKnown events.now frames.now }
    requires frames { (grounds : Ground) × AreFrames grounds events.now frames.now }
    ensures { Decides result (HasJudged events.now) }
{
    if has_judged_end(frames) {
        return true;
    }
    has_known_doubt(events, frames)
}

/// What of events was judged, whose frames are these, and of whose replies so many were compared.
pub(crate) fn evidence(events: &[Event<'_>], frames: &[Frame], compared: usize) -> Evidence
    requires known { AreKnown events.now frames.now }
    requires frames { (grounds : Ground) × AreFrames grounds events.now frames.now }
    requires count { length frames.now ≡ frames_in events.now }
    ensures { (grounds : Ground) → compared ≡ compared_in grounds events.now
        → IsEvidence grounds events.now result }
{
    if has_judged(events, frames) {
        return Evidence::Judged;
    }
    if frames.len() > 0 {
        return Evidence::NoFrame;
    }
    if compared > 0 {
        return Evidence::Judged;
    }
    Evidence::Nothing
}

impl Explanation {
    ghost use Rattle.std.specs.Prelude.{◌≡◌};
    ghost use Rattle.bench_judge.specs.Evidence.{passes};

    /// Whether the history is one to pass a unit by: something of it was judged, and it was observed to its end, unless it may be
    /// unfinished.
    pub fn passes(&self, may_be_unfinished: bool) -> bool
        ensures { result ≡ passes may_be_unfinished self.now }
    {
        if self.evidence != Evidence::Judged {
            return false;
        }
        self.finished || may_be_unfinished
    }
}
