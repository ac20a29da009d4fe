//! How much a history has of what.
ghost use Rattle.std.specs.Prelude.{◌≡◌, ◌++◌, ◌-◌, ◌∷◌, [], IfOk, List, count_by, length, slice_set, true};
ghost use Rattle.bench_history.specs.History.{frames_in};
ghost use Rattle.bench_history.specs.declared.event.Event.{Event as TheEvent};
ghost use Rattle.bench_answers.specs.Ground.{Ground};
ghost use Rattle.bench_answers.specs.Asked.{base, requests_of};
ghost use Rattle.bench_judge.specs.Counted.{AreCounts, AreKnown, AreMarks, doubtful_in, is_known_in, marked};

use crate::frame::Frame;
use crate::judgement::Counts;
use bench_history::{Among, Event, Extent};
use std::alloc::{AllocError, Global};

/// Whether enough is known of the frame of a number.
pub(crate) fn is_known_in(frames: &[Frame], number: u32) -> bool
    ensures { result ≡ is_known_in frames.now number }
{
    match frames.get(number as usize) {
        Some(frame) => frame.is_enough,
        None => false,
    }
}

impl Counts {
    ghost use Rattle.std.specs.Prelude.{◌≡◌, ◌<◌, ◌^◌, ◌+◌, if◌then◌else◌};
    ghost use Rattle.bench_history.specs.History.{is_frame, is_reply};
    ghost use Rattle.bench_judge.specs.Counted.{is_cut, is_dropped, is_known_in, is_left, is_lost, is_message, is_stray};

    /// Counts an event, and a frame as open. These are the frames.
    fn add(&mut self, event: &Event<'_>, frames: &[Frame])
        requires messages { self.old.messages + 1 < 2 ^ 64 }
        requires replies { self.old.replies + 1 < 2 ^ 64 }
        requires frames { self.old.«open» + 1 < 2 ^ 64 }
        requires forwarded { self.old.forwarded + 1 < 2 ^ 64 }
        requires dropped { self.old.dropped + 1 < 2 ^ 64 }
        requires lost { self.old.lost + 1 < 2 ^ 64 }
        requires strays { self.old.strays + 1 < 2 ^ 64 }
        requires cut { self.old.cut + 1 < 2 ^ 64 }
        ensures messages { self.new.messages
            ≡ self.old.messages + (if is_message event.now then 1 else 0) }
        ensures replies { self.new.replies
            ≡ self.old.replies + (if is_reply event.now then 1 else 0) }
        ensures frames { self.new.«open» ≡ self.old.«open» + (if is_frame event.now then 1 else 0) }
        ensures forwarded { self.new.forwarded
            ≡ self.old.forwarded + (if is_left (is_known_in frames.now) event.now then 1 else 0) }
        ensures dropped { self.new.dropped
            ≡ self.old.dropped + (if is_dropped (is_known_in frames.now) event.now then 1 else 0) }
        ensures lost { self.new.lost
            ≡ self.old.lost + (if is_lost (is_known_in frames.now) event.now then 1 else 0) }
        ensures strays { self.new.strays
            ≡ self.old.strays + (if is_stray event.now then 1 else 0) }
        ensures cut { self.new.cut ≡ self.old.cut + (if is_cut event.now then 1 else 0) }
        ensures accepted { self.new.accepted ≡ self.old.accepted }
        ensures doubtful { self.new.doubtful ≡ self.old.doubtful }
    {
        match event {
            Event::Sent { .. } => self.messages += 1,
            Event::Replied { .. } | Event::Excused { .. } => self.replies += 1,
            Event::Entered { extent, .. } => {
                self.open += 1;
                if *extent == Extent::Front {
                    self.cut += 1;
                }
            }
            Event::Left { number, .. } if is_known_in(frames, *number) => self.forwarded += 1,
            Event::Dropped { number } if is_known_in(frames, *number) => self.dropped += 1,
            Event::Lost { number } if is_known_in(frames, *number) => self.lost += 1,
            Event::Strayed { .. } => self.strays += 1,
            _ => {}
        }
    }
}

/// Sets the mark of the frame of a number, if there is one.
fn set_mark(marks: &mut Vec<bool>, number: u32)
    ensures { marks.new.items ≡ slice_set marks.old.items number true }
{
    if let Some(mark) = marks.get_mut(number as usize) {
        *mark = true;
    }
}

/// Marks frames of which one left.
fn mark(marks: &mut Vec<bool>, among: &Among<'_>)
    ensures { marks.new.items ≡ marked among.now.numbers marks.old.items }
{
    let mut numbers = among.numbers();
    'each_number: while let Some(number) = numbers.take_least() {
        set_mark(marks, number);
    }
}

/// Marks the frames of which the next event says that one left.
fn mark_next(marks: &mut Vec<bool>, event: &Event<'_>, frames: usize)
    ensures { (before : List TheEvent) → AreMarks before frames marks.old.items
        → AreMarks (before ++ event.now ∷ []) frames marks.new.items }
{
    if let Event::LeftOneOf { among, .. } = event {
        mark(marks, among);
    }
}

/// How many of marks are set.
fn count_set(marks: &[bool]) -> usize
    ensures { result ≡ count_by (λ mark. mark) marks.now }
{
    let mut count = 0;
    for mark in marks {
        if *mark {
            count += 1;
        }
    }
    count
}

/// How many of so many frames are doubtful.
pub(crate) fn doubtful(
    alloc: Global,
    events: &[Event<'_>],
    frames: usize,
) -> Result<usize, AllocError>
    requires { frames ≡ frames_in events.now }
    ensures { IfOk result (λ count. count ≡ doubtful_in events.now) }
{
    let mut marks = vec![in alloc; false; frames]?;
    for event in events {
        mark_next(&mut marks, event, frames);
    }
    Ok(count_set(&marks))
}

/// How much events have of what, whose frames are these, and of which so many requests are accepted and so many frames doubtful.
pub(crate) fn counts(
    events: &[Event<'_>],
    frames: &[Frame],
    accepted: usize,
    doubtful: usize,
) -> Counts
    requires known { AreKnown events.now frames.now }
    requires doubtful { doubtful ≡ doubtful_in events.now }
    ensures { (grounds : Ground) → accepted ≡ length (requests_of grounds events.now) - base grounds
        → AreCounts grounds events.now result }
{
    let mut counts = Counts {
        messages: 0,
        accepted,
        replies: 0,
        forwarded: 0,
        dropped: 0,
        lost: 0,
        open: 0,
        strays: 0,
        doubtful,
        cut: 0,
    };
    for event in events {
        counts.add(event, frames);
    }
    counts.open = counts
        .open
        .saturating_sub(counts.forwarded + counts.dropped + counts.lost);
    counts
}
