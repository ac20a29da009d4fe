//! The walk over captured frames in their order.
ghost use Rattle.std.specs.Prelude.{◌≡◌, ◌≤◌, ◌<◌, ◌+◌, ◌++◌, ◌∷◌, ◌||◌, [], ℕ, List, Option, Some, None, IfOk, drop, false, length, map, take, true};
ghost use Rattle.bench_history.specs.Among.{are_in_order};
ghost use Rattle.bench_history.specs.Doubts.{IsDoubted};
ghost use Rattle.bench_record.specs.Index.{CanSee, HasNumbers, IsSeen, core_shown, is_long, kept_shown, passed_shown};
ghost use Rattle.bench_record.specs.Matching.{Frames, candidates, leave_at};
ghost use Rattle.bench_record.specs.Messages.{message_of};
ghost use Rattle.bench_record.specs.Recorded.{Seen, core_in, early, enter, extent_within, hide, is_early, is_from_before, is_from_behind, is_missed, is_passed_over, is_unread, leave, leave_as, leave_doubtful, leave_unmatched, losses, losses_from, may_be_hidden, may_be_unnumbered, nothing_seen, other, see, see_message, see_reply, seen_in, unread, unwritable, waits, with_events, with_frame, without_number};
ghost use Rattle.bench_record.specs.Spans.{AreSpans};
ghost use Rattle.bench_record.specs.Text.{event_shown, timed_shown};
ghost use Rattle.bench_record.specs.Walk.{sourced_shown, sure_of};
ghost use Rattle.bench_record.specs.declared.captured.Capture.{Capture as TheCapture};

use crate::captured::{CapturedFrame, Source, Tap};
use crate::event::{RecordedEvent, TimedEvent};
use crate::frame_core::{FrameCore, core_of};
use crate::matching::{KeptFrame, earliest, keep_open, later, with_core};
use crate::message::{is_managing, is_reply, read_message};
use crate::open_frames::OpenFrames;
use crate::passed::Passed;
use crate::settings::RecordSettings;
use crate::spans::{Span, is_behind, is_early, is_watched, latest};
use bench_history::{Doubts, Extent, SeenGem};
use std::alloc::{AllocError, Global};

/// The most bytes of a frame that a line spells, whatever its numbers are: with `g 4294967295 65535 ` in front and two dots behind, it has
/// 19,999 bytes. Of a longer frame a history has a front.
pub const LONGEST_FRAME: usize = 9_989;

/// The same where numbers of frames stand behind it.
const LONGEST_NAMED: usize = 5_000;

/// How many frames a line names at most.
const MOST_NAMED: usize = 900;

/// The fewest bytes of a front that are enough to know a frame by.
const SHORTEST_FRONT: usize = 24;

/// A captured frame, and where it stands in captures.
#[derive(Clone, Copy)]
pub(crate) struct Sourced<'a> {
    pub(crate) source: Source,
    pub(crate) frame: CapturedFrame<'a>,
}

/// What a history is made by, and when its captures begin and end.
#[derive(Clone, Copy)]
pub(crate) struct Given<'s> {
    pub(crate) settings: RecordSettings<'s>,
    pub(crate) spans: &'s [Span],
}

/// What was seen so far.
#[derive(Drop)]
pub(crate) struct Walk<'a> {
    alloc: Global,
    // The frames that were sent, by their numbers.
    pub(crate) sent: Vec<KeptFrame<'a>>,
    // Those that may still leave.
    pub(crate) waiting: OpenFrames<'a>,
    // Those of which it can't be seen which one left.
    pub(crate) doubts: Doubts,
    // How many bytes are known behind the tags of each frame, if it isn't shorter.
    pub(crate) shortest: usize,
    // How many replies were seen.
    pub(crate) replies: u32,
    pub(crate) events: Vec<TimedEvent<'a>>,
    pub(crate) passed: Passed,
    // When frames left that are passed over though each may be any that was sent: hidden frames.
    pub(crate) hidden: Vec<u64>,
    // When the last frame was sent that is passed over, if one was.
    pub(crate) unnumbered: Option<u64>,
}

/// Whether too little of a frame is known.
fn is_unread(extent: Extent, frame: &[u8]) -> bool
    ensures { result ≡ is_unread extent frame.now }
{
    extent == Extent::Front && frame.len() < SHORTEST_FRONT
}

/// What a line shows of a frame: of a longer one a front.
fn within<'a>(most: usize, extent: Extent, frame: &'a [u8]) -> (Extent, &'a [u8])
    ensures extent { result.0 ≡ extent_within most extent frame.now }
    ensures frame { result.1.now ≡ take most frame.now }
{
    if frame.len() <= most {
        return (extent, frame);
    }
    (Extent::Front, frame.split_at(most).0)
}

/// Whether a frame that leaves at a time is passed over, since it may have been sent before the captures in front of the unit began.
fn is_from_before(given: &Given<'_>, time: u64) -> bool
    ensures { (captures : List TheCapture) → AreSpans captures given.now.spans.now
        → result ≡ is_from_before given.now.settings captures time }
{
    given.settings.late && is_early(given.spans, given.settings.lost, time)
}

/// Whether a frame that leaves at a time is passed over, since it may have been sent behind the end of a capture in front of the unit.
fn is_from_behind(given: &Given<'_>, time: u64) -> bool
    ensures { (captures : List TheCapture) → AreSpans captures given.now.spans.now
        → result ≡ is_from_behind given.now.settings captures time }
{
    given.settings.early && is_behind(given.spans, time)
}

/// Whether a frame that leaves at a time is passed over, whichever frame it could be.
fn is_passed_over(given: &Given<'_>, time: u64) -> bool
    ensures { (captures : List TheCapture) → AreSpans captures given.now.spans.now
        → result ≡ is_passed_over given.now.settings captures time }
{
    is_from_before(given, time) || is_from_behind(given, time)
}

/// Marks that the frame of a number was seen to leave.
fn mark(sent: &mut Vec<KeptFrame<'_>>, number: u32)
    ensures { map kept_shown sent.new.items ≡ leave_at number (map kept_shown sent.old.items) }
{
    if let Some(kept) = sent.get_mut(number as usize) {
        kept.has_left = true;
    }
}

impl<'a> Walk<'a> {
    /// What is seen in front of the first frame.
    pub(crate) fn new(alloc: Global, shortest: usize) -> Self
        ensures seen { (lost : Option ℕ) → IsSeen lost 0 nothing_seen result }
        ensures shortest { result.shortest ≡ shortest }
        ensures numbers { HasNumbers result }
    {
        Walk {
            alloc,
            sent: Vec::new(alloc),
            waiting: OpenFrames::new(alloc),
            doubts: Doubts::new(alloc),
            shortest,
            replies: 0,
            events: Vec::new(alloc),
            passed: Passed {
                other: Vec::new(alloc),
                unread: Vec::new(alloc),
                early: Vec::new(alloc),
                unwritable: Vec::new(alloc),
            },
            hidden: Vec::new(alloc),
            unnumbered: None,
        }
    }

    /// Adds an event that was seen in a captured frame.
    fn add(&mut self, at: &Sourced<'a>, event: RecordedEvent<'a>) -> Result<(), AllocError>
        ensures seen { (lost : Option ℕ) (time : ℕ) (seen : Seen) → IsSeen lost time seen self.old
            → IfOk result (λ _. IsSeen lost time
            (with_events (seen_in (sourced_shown at.now) (event_shown event.entry)
            ∷ []) seen) self.new) }
        ensures sent { self.new.sent ≡ self.old.sent }
        ensures shortest { self.new.shortest ≡ self.old.shortest }
    {
        self.events.push(TimedEvent {
            time: at.frame.time,
            source: Some(at.source),
            event,
        })?;
        Ok(())
    }

    /// Adds one that wasn't.
    fn add_unseen(&mut self, time: u64, event: RecordedEvent<'a>) -> Result<(), AllocError>
        ensures events { IfOk result (λ _. map timed_shown self.new.events.items
            ≡ map timed_shown self.old.events.items ++ record {
              time = time;
              source = None;
              event = event_shown event.entry;
            } ∷ []) }
        ensures doubts { self.new.doubts ≡ self.old.doubts }
        ensures hidden { self.new.hidden ≡ self.old.hidden }
        ensures passed { self.new.passed ≡ self.old.passed }
        ensures seen { (lost : Option ℕ) (now : ℕ) (seen : Seen) → IsSeen lost now seen self.old
            → IfOk result (λ _. IsSeen lost now (with_events (record {
              time = time;
              source = None;
              event = event_shown event.entry;
            } ∷ []) seen) self.new) }
        ensures sent { self.new.sent ≡ self.old.sent }
        ensures shortest { self.new.shortest ≡ self.old.shortest }
    {
        self.events.push(TimedEvent {
            time,
            source: None,
            event,
        })?;
        Ok(())
    }

    /// Passes over a frame of the management channel of another Ethertype.
    fn pass_other(&mut self, source: Source) -> Result<(), AllocError>
        ensures seen { (lost : Option ℕ) (time : ℕ) (seen : Seen) → IsSeen lost time seen self.old
            → IfOk result (λ _. IsSeen lost time (other source seen) self.new) }
        ensures sent { self.new.sent ≡ self.old.sent }
        ensures shortest { self.new.shortest ≡ self.old.shortest }
    {
        self.passed.other.push(source)?;
        Ok(())
    }

    /// Passes over a frame of which too little is known.
    fn pass_unread(&mut self, source: Source) -> Result<(), AllocError>
        ensures seen { (lost : Option ℕ) (time : ℕ) (seen : Seen) → IsSeen lost time seen self.old
            → IfOk result (λ _. IsSeen lost time (unread source seen) self.new) }
        ensures sent { self.new.sent ≡ self.old.sent }
        ensures shortest { self.new.shortest ≡ self.old.shortest }
    {
        self.passed.unread.push(source)?;
        Ok(())
    }

    /// Passes over one that leaves, and whose frame may have been sent unseen.
    fn pass_early(&mut self, source: Source) -> Result<(), AllocError>
        ensures seen { (lost : Option ℕ) (time : ℕ) (seen : Seen) → IsSeen lost time seen self.old
            → IfOk result (λ _. IsSeen lost time (early source seen) self.new) }
        ensures sent { self.new.sent ≡ self.old.sent }
        ensures shortest { self.new.shortest ≡ self.old.shortest }
    {
        self.passed.early.push(source)?;
        Ok(())
    }

    /// Passes over one that a history can't hold.
    fn pass_unwritable(&mut self, source: Source) -> Result<(), AllocError>
        ensures seen { (lost : Option ℕ) (time : ℕ) (seen : Seen) → IsSeen lost time seen self.old
            → IfOk result (λ _. IsSeen lost time (unwritable source seen) self.new) }
        ensures sent { self.new.sent ≡ self.old.sent }
        ensures shortest { self.new.shortest ≡ self.old.shortest }
    {
        self.passed.unwritable.push(source)?;
        Ok(())
    }

    /// Keeps when a frame left that is passed over though it may be any that was sent.
    fn hide(&mut self, time: u64) -> Result<(), AllocError>
        ensures seen { (lost : Option ℕ) (now : ℕ) (seen : Seen) → IsSeen lost now seen self.old
            → IfOk result (λ _. IsSeen lost now (hide time seen) self.new) }
        ensures sent { self.new.sent ≡ self.old.sent }
        ensures shortest { self.new.shortest ≡ self.old.shortest }
    {
        self.hidden.push(time)?;
        Ok(())
    }

    /// Keeps when a frame was sent that is passed over.
    fn leave_out(&mut self, time: u64)
        ensures seen { (lost : Option ℕ) (now : ℕ) (seen : Seen) → IsSeen lost now seen self.old
            → IsSeen lost now (without_number time seen) self.new }
        ensures sent { self.new.sent ≡ self.old.sent }
        ensures shortest { self.new.shortest ≡ self.old.shortest }
    {
        self.unnumbered = Some(time);
    }

    /// Adds the wait for a reply that was seen at a time, if waits are set.
    fn add_wait(&mut self, wait: Option<u64>, time: u64, replies: u32) -> Result<(), AllocError>
        ensures seen { (lost : Option ℕ) (now : ℕ) (seen : Seen) → IsSeen lost now seen self.old
            → IfOk result (λ _. IsSeen lost now (with_events
            (waits wait time replies) seen) self.new) }
        ensures sent { self.new.sent ≡ self.old.sent }
        ensures shortest { self.new.shortest ≡ self.old.shortest }
    {
        match wait {
            Some(wait) => self.add_unseen(later(time, wait), RecordedEvent::Waited { replies }),
            None => Ok(()),
        }
    }

    /// Sees a reply.
    fn see_reply(
        &mut self,
        given: &Given<'_>,
        at: &Sourced<'a>,
        reply: &'a [u8],
    ) -> Result<(), AllocError>
        ensures seen { (time : ℕ) (seen : Seen) → IsSeen given.now.settings.lost time seen self.old
            → IfOk result (λ _. IsSeen given.now.settings.lost time
            (see_reply given.now.settings (sourced_shown at.now) reply.now seen) self.new) }
        ensures sent { self.new.sent ≡ self.old.sent }
        ensures shortest { self.new.shortest ≡ self.old.shortest }
    {
        if self.replies == u32::MAX {
            return self.pass_unwritable(at.source);
        }
        self.replies += 1;
        let replies = self.replies;
        self.add(at, RecordedEvent::Replied { reply })?;
        self.add_wait(given.settings.wait, at.frame.time, replies)
    }

    /// Sees a frame of the management channel.
    fn see_message(&mut self, given: &Given<'_>, at: &Sourced<'a>) -> Result<(), AllocError>
        ensures seen { (time : ℕ) (seen : Seen) → IsSeen given.now.settings.lost time seen self.old
            → IfOk result (λ _. IsSeen given.now.settings.lost time
            (see_message given.now.settings (sourced_shown at.now)
            (message_of at.now.frame.bytes.now) seen)
            self.new) }
        ensures sent { self.new.sent ≡ self.old.sent }
        ensures shortest { self.new.shortest ≡ self.old.shortest }
    {
        match read_message(at.frame.bytes) {
            Some(message) => {
                if is_reply(message) {
                    self.see_reply(given, at, message)
                } else {
                    self.add(at, RecordedEvent::Sent { message })
                }
            }
            None => {
                if is_managing(at.frame.bytes) {
                    self.pass_unread(at.source)
                } else {
                    self.pass_other(at.source)
                }
            }
        }
    }

    /// Keeps a frame that was sent into a port.
    fn enter_as(&mut self, number: u32, core: FrameCore<'a>, time: u64) -> Result<(), AllocError>
        requires { number ≡ length self.old.sent.items }
        ensures seen { (lost : Option ℕ) (since : ℕ) (seen : Seen) → IsSeen lost since seen self.old
            → is_long self.old.shortest (core_shown core.entry) ≡ true
            → IfOk result (λ _. IsSeen lost since (with_frame (record {
              time = time;
              core = core_shown core.entry;
              has_left = false;
              hidden_before = length seen.hidden;
            }) seen) self.new) }
        ensures sent { IfOk result (λ _. length self.new.sent.items ≡ number + 1) }
        ensures shortest { self.new.shortest ≡ self.old.shortest }
    {
        self.sent.push(KeptFrame {
            time,
            core,
            has_left: false,
            hidden_before: self.hidden.len(),
        })?;
        self.waiting.send(core.key(self.shortest), number)
    }

    /// Sees a frame that is sent into a port.
    fn enter(&mut self, given: &Given<'_>, at: &Sourced<'a>, port: u16) -> Result<(), AllocError>
        requires { HasNumbers self.old }
        ensures seen { (time : ℕ) (seen : Seen) → IsSeen given.now.settings.lost time seen self.old
            → is_long self.old.shortest (core_in given.now.settings at.now.frame) ≡ true
            → IfOk result (λ _. IsSeen given.now.settings.lost time
            (enter given.now.settings (sourced_shown at.now) port seen) self.new) }
        ensures numbers { IfOk result (λ _. HasNumbers self.new) }
        ensures shortest { self.new.shortest ≡ self.old.shortest }
    {
        let CapturedFrame {
            time,
            tap: _,
            extent,
            bytes,
        } = at.frame;
        if is_unread(extent, bytes) {
            self.leave_out(time);
            return self.pass_unread(at.source);
        }
        let Ok(number) = u32::try_from(self.sent.len()) else {
            self.leave_out(time);
            return self.pass_unwritable(at.source);
        };
        let settings = &given.settings;
        self.enter_as(
            number,
            core_of(settings.tpids, settings.padded, extent, bytes),
            time,
        )?;
        let (extent, frame) = within(LONGEST_FRAME, extent, bytes);
        self.add(
            at,
            RecordedEvent::Entered {
                port,
                extent,
                frame,
            },
        )
    }

    /// The open frames that one of a core may be which leaves at a time, by their numbers.
    fn candidates(
        &mut self,
        lost: Option<u64>,
        time: u64,
        core: &FrameCore<'a>,
    ) -> Result<Vec<u32>, AllocError>
        ensures found { (since : ℕ) (seen : Seen) → IsSeen lost since seen self.old → since ≤ time
            → is_long self.old.shortest (core_shown core.now) ≡ true
            → IfOk result (λ found. found.items
            ≡ candidates lost time (core_shown core.now) seen.frames) }
        ensures seen { (since : ℕ) (seen : Seen) → IsSeen lost since seen self.old → since ≤ time
            → IsSeen lost time seen self.new }
        ensures sent { self.new.sent ≡ self.old.sent }
        ensures shortest { self.new.shortest ≡ self.old.shortest }
    {
        match self.waiting.queues.get_mut(&core.key(self.shortest)) {
            Some(queue) => {
                keep_open(queue, &self.sent, &self.doubts, earliest(lost, time));
                with_core(self.alloc, queue, &self.sent, core)
            }
            None => Ok(Vec::new(self.alloc)),
        }
    }

    /// Whether a frame that leaves at a time may be one that was sent and passed over.
    fn may_be_unnumbered(&self, lost: Option<u64>, time: u64) -> bool
        ensures { result ≡ may_be_unnumbered lost self.now.unnumbered time }
    {
        match self.unnumbered {
            Some(sent) => time <= latest(lost, sent),
            None => false,
        }
    }

    /// Whether it may be one that isn't among the frames: it was sent before a capture began, or passed over.
    fn may_be_another(&self, given: &Given<'_>, time: u64) -> bool
        ensures { (captures : List TheCapture) → AreSpans captures given.now.spans.now
            → result ≡ (is_early given.now.settings.lost captures time
            || may_be_unnumbered given.now.settings.lost self.now.unnumbered time) }
    {
        let lost = given.settings.lost;
        is_early(given.spans, lost, time) || self.may_be_unnumbered(lost, time)
    }

    /// Sees a frame that leaves while none is open that it could be.
    fn leave_unmatched(
        &mut self,
        given: &Given<'_>,
        at: &Sourced<'a>,
        gem: SeenGem,
    ) -> Result<(), AllocError>
        ensures seen { (captures : List TheCapture) (time : ℕ) (seen : Seen)
            → AreSpans captures given.now.spans.now
            → IsSeen given.now.settings.lost time seen self.old
            → IfOk result (λ _. IsSeen given.now.settings.lost time
            (leave_unmatched given.now.settings captures
            (sourced_shown at.now) gem seen) self.new) }
        ensures sent { self.new.sent ≡ self.old.sent }
        ensures shortest { self.new.shortest ≡ self.old.shortest }
    {
        if self.may_be_another(given, at.frame.time) {
            return self.pass_early(at.source);
        }
        let (extent, frame) = within(LONGEST_FRAME, at.frame.extent, at.frame.bytes);
        self.add(at, RecordedEvent::Strayed { gem, extent, frame })
    }

    /// Sees that one of several leaves, or one that is doubtful.
    fn leave_doubtful(
        &mut self,
        at: &Sourced<'a>,
        gem: SeenGem,
        numbers: Vec<u32>,
    ) -> Result<(), AllocError>
        requires { are_in_order numbers.items ≡ true }
        ensures seen { (lost : Option ℕ) (time : ℕ) (seen : Seen) → IsSeen lost time seen self.old
            → IfOk result (λ _. IsSeen lost time
            (leave_doubtful (sourced_shown at.now) gem numbers.items seen) self.new) }
        ensures sent { self.new.sent ≡ self.old.sent }
        ensures shortest { self.new.shortest ≡ self.old.shortest }
    {
        if numbers.len() > MOST_NAMED {
            self.hide(at.frame.time)?;
            return self.pass_unwritable(at.source);
        }
        self.doubts.name(Vec::from_slice(self.alloc, &numbers)?)?;
        let (extent, frame) = within(LONGEST_NAMED, at.frame.extent, at.frame.bytes);
        self.add(
            at,
            RecordedEvent::LeftOneOf {
                gem,
                extent,
                frame,
                numbers,
            },
        )
    }

    /// Lets the frames of a core's key go that aren't open at a time, and their queue where it has no others.
    fn let_go(
        &mut self,
        lost: Option<u64>,
        time: u64,
        core: &FrameCore<'a>,
    ) -> Result<(), AllocError>
        ensures seen { (seen : Seen) → IsSeen lost time seen self.old
            → IfOk result (λ _. IsSeen lost time seen self.new) }
        ensures sent { self.new.sent ≡ self.old.sent }
        ensures shortest { self.new.shortest ≡ self.old.shortest }
    {
        let key = core.key(self.shortest);
        let Some(mut queue) = self.waiting.queues.remove(&key) else {
            return Ok(());
        };
        keep_open(&mut queue, &self.sent, &self.doubts, earliest(lost, time));
        if !queue.is_empty() {
            self.waiting.queues.insert(key, queue)?;
        }
        Ok(())
    }

    /// Sees that the frame of a number leaves, which has this core.
    fn leave_as(
        &mut self,
        lost: Option<u64>,
        at: &Sourced<'a>,
        gem: SeenGem,
        core: &FrameCore<'a>,
        number: u32,
    ) -> Result<(), AllocError>
        ensures seen { (seen : Seen) → IsSeen lost at.now.frame.time seen self.old
            → IfOk result (λ _. IsSeen lost at.now.frame.time
            (leave_as number (sourced_shown at.now) gem seen) self.new) }
        ensures count { length self.new.sent.items ≡ length self.old.sent.items }
        ensures shortest { self.new.shortest ≡ self.old.shortest }
    {
        mark(&mut self.sent, number);
        self.let_go(lost, at.frame.time, core)?;
        let (extent, frame) = within(LONGEST_FRAME, at.frame.extent, at.frame.bytes);
        self.add(
            at,
            RecordedEvent::Left {
                gem,
                extent,
                number,
                frame,
            },
        )
    }

    /// The one of some frames, where it is one and isn't doubtful.
    fn sure_of(&self, numbers: &[u32]) -> Option<u32>
        ensures { (named : List (List ℕ)) → IsDoubted named self.now.doubts
            → result ≡ sure_of named numbers.now }
    {
        match numbers {
            [number] => {
                if self.doubts.is_doubtful(*number) {
                    None
                } else {
                    Some(*number)
                }
            }
            _ => None,
        }
    }

    /// Sees a frame that leaves.
    fn leave(&mut self, given: &Given<'_>, at: &Sourced<'a>, gem: SeenGem) -> Result<(), AllocError>
        requires { CanSee given.now.settings.lost at.now.frame.time
            (core_in given.now.settings at.now.frame) self.old }
        ensures seen { (captures : List TheCapture) (since : ℕ) (seen : Seen)
            → AreSpans captures given.now.spans.now
            → IsSeen given.now.settings.lost since seen self.old
            → since ≤ at.now.frame.time
            → is_long self.old.shortest (core_in given.now.settings at.now.frame) ≡ true
            → IfOk result (λ _. IsSeen given.now.settings.lost at.now.frame.time
            (leave given.now.settings captures (sourced_shown at.now) gem seen) self.new) }
        ensures count { IfOk result (λ _. length self.new.sent.items ≡ length self.old.sent.items) }
        ensures shortest { self.new.shortest ≡ self.old.shortest }
    {
        let frame = &at.frame;
        if is_unread(frame.extent, frame.bytes) {
            self.hide(frame.time)?;
            return self.pass_unread(at.source);
        }
        if is_passed_over(given, frame.time) {
            self.pass_early(at.source)?;
            return self.hide(frame.time);
        }
        let settings = &given.settings;
        let core = core_of(settings.tpids, settings.padded, frame.extent, frame.bytes);
        let numbers = self.candidates(settings.lost, frame.time, &core)?;
        if numbers.is_empty() {
            return self.leave_unmatched(given, at, gem);
        }
        match self.sure_of(&numbers) {
            Some(number) => self.leave_as(settings.lost, at, gem, &core, number),
            None => self.leave_doubtful(at, gem, numbers),
        }
    }

    /// Sees a captured frame. It was seen no earlier than those before it.
    pub(crate) fn see(&mut self, given: &Given<'_>, at: &Sourced<'a>) -> Result<(), AllocError>
        requires numbers { HasNumbers self.old }
        requires seen { CanSee given.now.settings.lost at.now.frame.time
            (core_in given.now.settings at.now.frame) self.old }
        ensures seen { (captures : List TheCapture) (since : ℕ) (seen : Seen)
            → AreSpans captures given.now.spans.now
            → IsSeen given.now.settings.lost since seen self.old
            → since ≤ at.now.frame.time
            → is_long self.old.shortest (core_in given.now.settings at.now.frame) ≡ true
            → IfOk result (λ _. IsSeen given.now.settings.lost at.now.frame.time
            (see given.now.settings captures (sourced_shown at.now) seen) self.new) }
        ensures numbers { IfOk result (λ _. HasNumbers self.new) }
        ensures shortest { self.new.shortest ≡ self.old.shortest }
    {
        match at.frame.tap {
            Tap::Omci => self.see_message(given, at),
            Tap::Into { port } => self.enter(given, at, port),
            Tap::OutOf { gem } => self.leave(given, at, gem),
        }
    }

    /// Whether a frame that was sent may be a hidden one: the next of these left before it was lost.
    fn may_be_hidden(&self, sent: &KeptFrame<'_>, lost: u64) -> bool
        ensures { result ≡ may_be_hidden lost self.now.hidden.items (kept_shown sent.now) }
    {
        match self.hidden.get(sent.hidden_before) {
            Some(time) => *time <= later(sent.time, lost),
            None => false,
        }
    }

    /// Whether a frame is told as lost: it wasn't seen to leave, isn't doubtful and isn't a hidden one, and would have been captured.
    fn is_missed(&self, spans: &[Span], number: u32, sent: &KeptFrame<'_>, lost: u64) -> bool
        ensures { (captures : List TheCapture) (named : List (List ℕ)) → AreSpans captures spans.now
            → IsDoubted named self.now.doubts
            → result ≡ is_missed lost captures self.now.hidden.items named number
            (kept_shown sent.now) }
    {
        !sent.has_left
            && !self.doubts.is_doubtful(number)
            && !self.may_be_hidden(sent, lost)
            && is_watched(spans, lost, sent.time)
    }

    /// Adds the loss of the frame of a number, if it is missed.
    fn lose_one(&mut self, spans: &[Span], number: usize, lost: u64) -> Result<(), AllocError>
        requires within { number < length self.old.sent.items }
        requires numbers { HasNumbers self.old }
        ensures events { (captures : List TheCapture) (frames : Frames)
            → AreSpans captures spans.now
            → map kept_shown self.old.sent.items ≡ frames.sent
            → IsDoubted frames.named self.old.doubts
            → IfOk result (λ _. map timed_shown self.new.events.items
            ++ losses_from lost captures self.old.hidden.items frames.named (number + 1)
            (drop (number + 1) frames.sent)
            ≡ map timed_shown self.old.events.items
            ++ losses_from lost captures self.old.hidden.items frames.named number
            (drop number frames.sent)) }
        ensures hidden { self.new.hidden ≡ self.old.hidden }
        ensures sent { self.new.sent ≡ self.old.sent }
        ensures doubts { self.new.doubts ≡ self.old.doubts }
        ensures passed { self.new.passed ≡ self.old.passed }
    {
        let sent = self.sent[number];
        let number = number as u32;
        if self.is_missed(spans, number, &sent, lost) {
            return self.add_unseen(later(sent.time, lost), RecordedEvent::Lost { number });
        }
        Ok(())
    }

    /// Adds the losses of all frames that are missed.
    fn lose_all(&mut self, spans: &[Span], lost: u64) -> Result<(), AllocError>
        requires { HasNumbers self.old }
        ensures events { (captures : List TheCapture) (frames : Frames)
            → AreSpans captures spans.now
            → map kept_shown self.old.sent.items ≡ frames.sent
            → IsDoubted frames.named self.old.doubts
            → IfOk result (λ _. map timed_shown self.new.events.items
            ≡ map timed_shown self.old.events.items
            ++ losses_from lost captures self.old.hidden.items frames.named 0 frames.sent) }
        ensures passed { IfOk result (λ _. self.new.passed ≡ self.old.passed) }
    {
        for number in 0..self.sent.len() {
            self.lose_one(spans, number, lost)?;
        }
        Ok(())
    }

    /// Adds the losses of all frames that are missed, if a time is set after which a frame is lost.
    fn lose(&mut self, given: &Given<'_>) -> Result<(), AllocError>
        requires { HasNumbers self.old }
        ensures events { (captures : List TheCapture) (frames : Frames)
            → AreSpans captures given.now.spans.now
            → map kept_shown self.old.sent.items ≡ frames.sent
            → IsDoubted frames.named self.old.doubts
            → IfOk result (λ _. map timed_shown self.new.events.items
            ≡ map timed_shown self.old.events.items
            ++ losses given.now.settings.lost captures self.old.hidden.items frames) }
        ensures passed { IfOk result (λ _. self.new.passed ≡ self.old.passed) }
    {
        match given.settings.lost {
            Some(lost) => self.lose_all(given.spans, lost),
            None => Ok(()),
        }
    }

    /// The events, those of losses behind all others, and what was passed over.
    pub(crate) fn finish(
        mut self,
        given: &Given<'_>,
    ) -> Result<(Vec<TimedEvent<'a>>, Passed), AllocError>
        requires { HasNumbers self }
        ensures events { (captures : List TheCapture) (since : ℕ) (seen : Seen)
            → AreSpans captures given.now.spans.now
            → IsSeen given.now.settings.lost since seen self.entry
            → IfOk result (λ ends. map timed_shown ends.0.items
            ≡ seen.events ++ losses given.now.settings.lost captures seen.hidden seen.frames) }
        ensures passed { (since : ℕ) (seen : Seen)
            → IsSeen given.now.settings.lost since seen self.entry
            → IfOk result (λ ends. passed_shown ends.1 ≡ seen.passed) }
    {
        self.lose(given)?;
        Ok((self.events, self.passed))
    }
}
