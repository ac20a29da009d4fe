//! What the lines of a history so far allow the next to say.
ghost use Rattle.std.specs.Prelude.{◌≡◌, ◌<◌, ◌++◌, ◌^◌, [], ◌∷◌, IfOk, List, length, nat_lt, slice_set, true};
ghost use Rattle.std.specs.List.{list_all, list_any};
ghost use Rattle.bench_history.specs.History.{fits, is_doubtful, is_open, may_be_left, may_be_one, may_end, may_follow};
ghost use Rattle.bench_history.specs.Seen.{IsSeen};
ghost use Rattle.bench_history.specs.declared.event.Event.{Event};

use crate::among::Among;
use crate::doubts::Doubts;
use crate::event::Event;
use std::alloc::{AllocError, Global};

/// What is kept of the events of a history, so that the next can be judged without a look back.
#[derive(Drop)]
pub(crate) struct Seen {
    // Whether each frame has ended, by its number.
    ended: Vec<bool>,
    // How many replies were seen.
    replies: u64,
    // Whether the observation ended.
    is_over: bool,
    doubts: Doubts,
}

/// Whether a frame is one of several.
fn are_several(among: &Among<'_>) -> bool
    ensures { result ≡ nat_lt 1 (length among.now.numbers) }
{
    let mut numbers = among.numbers();
    let _least = numbers.take_least();
    numbers.take_least().is_some()
}

impl Seen {
    /// What no event leaves.
    pub(crate) fn new(alloc: Global) -> Self
        ensures { IsSeen [] result }
    {
        Seen {
            ended: Vec::new(alloc),
            replies: 0,
            is_over: false,
            doubts: Doubts::new(alloc),
        }
    }

    /// Whether a frame was sent and hasn't ended.
    fn is_open(&self, number: u32) -> bool
        ensures { (events : List Event) → IsSeen events self.now
            → result ≡ is_open number events }
    {
        matches!(self.ended.get(number as usize), Some(false))
    }

    /// Whether a frame may end.
    fn may_end(&self, number: u32) -> bool
        ensures { (events : List Event) → IsSeen events self.now
            → result ≡ may_end number events }
    {
        self.is_open(number) && !self.doubts.is_doubtful(number)
    }

    /// Whether it may be one that left.
    fn may_be_left(&self, number: u32) -> bool
        ensures { (events : List Event) → IsSeen events self.now
            → result ≡ may_be_left events number }
    {
        self.is_open(number) && !self.doubts.is_used_up(number)
    }

    /// Whether each of some frames may.
    fn may_each_be_left(&self, among: &Among<'_>) -> bool
        ensures { (events : List Event) → IsSeen events self.now
            → result ≡ list_all (may_be_left events) among.now.numbers }
    {
        let mut numbers = among.numbers();
        while let Some(number) = numbers.take_least() {
            if !self.may_be_left(number) {
                return false;
            }
        }
        true
    }

    /// Whether any of them is doubtful.
    fn is_any_doubtful(&self, among: &Among<'_>) -> bool
        ensures { (events : List Event) → IsSeen events self.now
            → result ≡ list_any (λ n. is_doubtful n events) among.now.numbers }
    {
        let mut numbers = among.numbers();
        while let Some(number) = numbers.take_least() {
            if self.doubts.is_doubtful(number) {
                return true;
            }
        }
        false
    }

    /// Whether one of frames may have left.
    fn may_be_one(&self, among: &Among<'_>) -> bool
        ensures { (events : List Event) → IsSeen events self.now
            → result ≡ may_be_one among.now.numbers events }
    {
        self.may_each_be_left(among) && (are_several(among) || self.is_any_doubtful(among))
    }

    /// Whether an event fits those seen, while the observation goes on.
    fn fits(&self, event: &Event<'_>) -> bool
        ensures { (events : List Event) → IsSeen events self.now
            → result ≡ fits events event.now }
    {
        match event {
            Event::Left { number, .. } | Event::Dropped { number } | Event::Lost { number } =>
                self.may_end(*number),
            Event::LeftOneOf { among, .. } => self.may_be_one(among),
            Event::Waited {
                replies: Some(replies),
            } => u64::from(*replies) <= self.replies,
            _ => true,
        }
    }

    /// Whether an event may stand behind those seen.
    pub(crate) fn admits(&self, event: &Event<'_>) -> bool
        ensures { (events : List Event) → IsSeen events self.now
            → result ≡ may_follow events event.now }
    {
        match event {
            Event::Nothing => true,
            _ => !self.is_over && self.fits(event),
        }
    }

    /// Marks the frame of a number as ended.
    fn end(&mut self, number: u32)
        ensures ended { self.new.ended.items ≡ slice_set self.old.ended.items number true }
        ensures replies { self.new.replies ≡ self.old.replies }
        ensures over { self.new.is_over ≡ self.old.is_over }
        ensures doubts { self.new.doubts ≡ self.old.doubts }
    {
        if let Some(ended) = self.ended.get_mut(number as usize) {
            *ended = true;
        }
    }

    /// Adds an event that may stand behind those seen.
    pub(crate) fn add(&mut self, event: &Event<'_>) -> Result<(), AllocError>
        requires { self.old.replies < 2 ^ 63 }
        ensures { (events : List Event) → IsSeen events self.old
            → may_follow events event.now ≡ true
            → IfOk result (λ _. IsSeen (events ++ event.now ∷ []) self.new) }
    {
        self.doubts.follow(event)?;
        match event {
            Event::Entered { .. } => self.ended.push(false)?,
            Event::Left { number, .. } | Event::Dropped { number } | Event::Lost { number } =>
                self.end(*number),
            Event::Replied { .. } | Event::Excused { .. } => self.replies += 1,
            Event::Ended => self.is_over = true,
            _ => {}
        }
        Ok(())
    }
}
