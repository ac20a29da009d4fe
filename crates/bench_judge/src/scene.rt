//! What is kept of the events on the way through them.
ghost use Rattle.std.specs.Prelude.{◌≡◌, ◌+◌, ◌<◌, ◌≤◌, IfOk, List, Some, length, slice_get, slice_set, take, true};
ghost use Rattle.bench_history.specs.History.{is_sound};
ghost use Rattle.bench_history.specs.declared.event.Event.{Event};
ghost use Rattle.bench_history.specs.declared.event.Event.TheVariants.{Entered};
ghost use Rattle.bench_judge.specs.Admitted.{IsAdmitted};
ghost use Rattle.bench_judge.specs.Scene.{IsScene, ended_by};
ghost use Rattle.bench_judge.specs.Terms.{Terms as TheTerms, terms_of};
ghost use Rattle.bench_judge.specs.Walk.{AreSound, IsRefused, IsWalk};
ghost use Rattle.bench_judge.specs.declared.frame.Frame.{Frame};

use crate::frame::Frame;
use crate::terms::Terms;
use crate::walk::Walk;
use bench_answers::Answers;
use bench_history::{Digits, Event, Extent};
use bench_sight::is_enough;
use std::alloc::{AllocError, Global};

/// What is kept of the events so far, so that each is looked at once.
#[derive(Drop)]
pub(crate) struct Scene<'a> {
    /// The messages and the replies, which are all right or excused.
    pub(crate) answers: Answers<'a>,
    /// How many requests were accepted before the first event.
    pub(crate) base: usize,
    /// The frames, by their numbers.
    pub(crate) frames: Vec<Frame>,
}

/// A frame that the event at a place ends, with the greatest version that it may have. One of which too little is known stays open.
fn ended_by(frame: &Frame, place: usize, most: usize) -> Frame
    ensures { result ≡ ended_by place most frame.now }
{
    if !frame.is_enough {
        return *frame;
    }
    Frame {
        ended: Some(place),
        most,
        ..*frame
    }
}

/// Ends the frame of a number.
fn end_frame(frames: &mut Vec<Frame>, number: u32, place: usize, most: usize)
    ensures { (frame : Frame) → slice_get frames.old.items number ≡ Some frame
        → frames.new.items ≡ slice_set frames.old.items number (ended_by place most frame) }
{
    if let Some(frame) = frames.get_mut(number as usize) {
        *frame = ended_by(frame, place, most);
    }
}

impl<'a> Scene<'a> {
    /// What no event leaves.
    pub(crate) fn new(alloc: Global, terms: &Terms<'_>) -> Result<Self, AllocError>
        ensures { IfOk result (λ scene. (events : List Event)
            → IsScene (terms_of terms.now) events 0 scene) }
    {
        let answers = Answers::new(alloc, &terms.basis())?;
        Ok(Scene {
            base: answers.most(),
            answers,
            frames: Vec::new(alloc),
        })
    }

    /// Adds the frame that the event at a place sends into a port.
    fn enter(
        &mut self,
        place: usize,
        port: u16,
        extent: Extent,
        frame: &Digits<'_>,
    ) -> Result<(), AllocError>
        ensures { (terms : TheTerms) (events : List Event)
            → slice_get events place ≡ Some (Entered port extent frame.now)
            → IsScene terms events place self.old
            → IfOk result (λ _. IsScene terms events (place + 1) self.new) }
    {
        let least = self.answers.least();
        self.frames.push(Frame {
            sent: place,
            ended: None,
            port,
            is_enough: is_enough(extent, frame),
            least,
            most: 0,
        })?;
        Ok(())
    }

    /// What is known of the events before a place.
    pub(crate) fn into_walk(self, walked: usize) -> Walk
        ensures { (terms : TheTerms) (events : List Event) → AreSound events → walked ≤ length events
            → IsScene terms events walked self.entry
            → (walked < length events
            → IsRefused terms (take walked events) (slice_get events walked))
            → IsWalk terms events result }
    {
        Walk {
            walked,
            base: self.base,
            compared: self.answers.compared(),
            awaited: self.answers.awaited(),
            requests: self.answers.into_requests(),
            frames: self.frames,
        }
    }

    /// Adds the event at a place, which is admitted.
    pub(crate) fn add(&mut self, place: usize, event: &Event<'a>) -> Result<(), AllocError>
        ensures { (terms : TheTerms) (events : List Event) → slice_get events place ≡ Some event.now
            → is_sound (take place events) event.now ≡ true
            → IsAdmitted terms (take place events) event.now
            → IsScene terms events place self.old
            → IfOk result (λ _. IsScene terms events (place + 1) self.new) }
    {
        match event {
            Event::Sent { message } => self.answers.send(place, message),
            Event::Replied { reply } => self.answers.take(reply),
            Event::Excused { reply } => self.answers.excuse(reply),
            Event::Waited { replies } => {
                self.answers.wait(*replies);
                Ok(())
            }
            Event::Entered {
                port,
                extent,
                frame,
            } => self.enter(place, *port, *extent, frame),
            Event::Left { number, .. } | Event::Dropped { number } | Event::Lost { number } => {
                let most = self.answers.most();
                end_frame(&mut self.frames, *number, place, most);
                Ok(())
            }
            Event::Strayed { .. } | Event::LeftOneOf { .. } | Event::Ended | Event::Nothing => {
                Ok(())
            }
        }
    }
}
