//! What a lab has to know of a history that was made of captures: what in it is in doubt, and what it leaves open.
ghost use Rattle.std.specs.Prelude.{◌≡◌};
ghost use Rattle.bench_history.specs.Among.{are_in_order, ascend_from};

use crate::clocks::{Ahead, frames_ahead};
use crate::tags::{has_tag, without_tags};
use crate::unseen::{may_begin_late, may_end_early};
use bench_history::Doubts;
use bench_record::{Capture, RecordSettings, RecordedEvent, Recording, Source, TimedEvent};
use std::alloc::{AllocError, Global};

/// Frames of which something is to be said, by where they were seen; all but those that left before they were sent in order of their records.
#[derive(Drop)]
pub(crate) struct Findings {
    /// Those of the management channel that are of another Ethertype.
    pub(crate) other: Vec<Source>,
    /// Those of which too little is known.
    pub(crate) unread: Vec<Source>,
    /// Those that left, and may have been sent unseen.
    pub(crate) early: Vec<Source>,
    /// Whether some of these may have been on their way as captures in front of the unit began, and that isn't set.
    pub(crate) may_begin_late: bool,
    /// Those that a history can't hold.
    pub(crate) unwritable: Vec<Source>,
    /// Those that left and may be one of several, or one that is doubtful.
    pub(crate) doubtful: Vec<Source>,
    /// Those that left, and that no open frame can be.
    pub(crate) strays: Vec<Source>,
    /// Whether some of these left behind the end of a capture in front of the unit, and no such frames are passed over.
    pub(crate) may_end_early: bool,
    /// Those that left before any of their core was sent.
    pub(crate) ahead: Vec<Ahead>,
    /// Those that were sent, and neither left nor are lost.
    pub(crate) open: Vec<Source>,
    /// The captures, by their numbers, of which no frame has a tag, though one left there that was sent with a tag.
    pub(crate) untagged: Vec<usize>,
}

impl Findings {
    /// Whether something in the history is in doubt, a stray or open, left out for want of room, taken for what may have been on its way as captures
    /// began, or of a capture that may lack its tags.
    pub(crate) fn leave_doubt(&self) -> bool {
        self.may_begin_late
            || !self.unwritable.is_empty()
            || !self.doubtful.is_empty()
            || !self.strays.is_empty()
            || !self.ahead.is_empty()
            || !self.open.is_empty()
            || !self.untagged.is_empty()
    }
}

/// A frame that was sent.
#[derive(Clone, Copy)]
struct Sent {
    source: Source,
    time: u64,
    has_tag: bool,
    /// Whether it was seen to leave, or is lost.
    has_ended: bool,
}

/// What is found so far.
#[derive(Drop)]
struct Finder<'t> {
    alloc: Global,
    // The types that begin a tag beside those of IEEE 802.1Q.
    tpids: &'t [u16],
    // By their numbers.
    sent: Vec<Sent>,
    doubts: Doubts,
    doubtful: Vec<Source>,
    strays: Vec<Source>,
    // Of each capture, whether a frame left there that was sent with a tag.
    left_tagged: Vec<bool>,
}

/// Whether numbers ascend from one on.
fn ascend_from(least: u64, numbers: &[u32]) -> bool
    ensures { result ≡ ascend_from least numbers.now }
{
    match numbers {
        [] => true,
        [first, rest @ ..] => {
            u64::from(*first) >= least && ascend_from(u64::from(*first) + 1, rest)
        }
    }
}

/// Whether there are numbers, and they ascend.
fn are_in_order(numbers: &[u32]) -> bool
    ensures { result ≡ are_in_order numbers.now }
{
    match numbers {
        [] => false,
        [first, rest @ ..] => ascend_from(u64::from(*first) + 1, rest),
    }
}

impl<'t> Finder<'t> {
    /// Nothing of so many captures, where these types begin a tag too.
    fn new(alloc: Global, captures: usize, tpids: &'t [u16]) -> Result<Self, AllocError> {
        Ok(Finder {
            alloc,
            tpids,
            sent: Vec::new(alloc),
            doubts: Doubts::new(alloc),
            doubtful: Vec::new(alloc),
            strays: Vec::new(alloc),
            left_tagged: vec![in alloc; false; captures]?,
        })
    }

    /// Notes that the frame of a number left, or is lost.
    fn end(&mut self, number: u32) {
        if let Some(sent) = self.sent.get_mut(number as usize) {
            sent.has_ended = true;
        }
    }

    /// Whether the frames of some numbers were all sent with a tag.
    fn had_tags(&self, numbers: &[u32]) -> bool {
        numbers.iter().all(|number| match self.sent.get(*number as usize) {
            Some(sent) => sent.has_tag,
            None => false,
        })
    }

    /// Notes that one of some frames left in a capture.
    fn leave(&mut self, capture: usize, numbers: &[u32]) {
        if self.had_tags(numbers)
            && let Some(has_left) = self.left_tagged.get_mut(capture)
        {
            *has_left = true;
        }
    }

    /// Notes that one of some frames left, which can't be told apart.
    fn doubt(&mut self, source: Source, numbers: &[u32]) -> Result<(), AllocError> {
        self.doubtful.push(source)?;
        self.leave(source.capture, numbers);
        let frames = Vec::from_slice(self.alloc, numbers)?;
        if are_in_order(&frames) {
            self.doubts.name(frames)?;
        }
        Ok(())
    }

    /// Notes an event that was seen in a captured frame.
    fn see(
        &mut self,
        time: u64,
        source: Source,
        event: &RecordedEvent<'_>,
    ) -> Result<(), AllocError> {
        match event {
            RecordedEvent::Entered { frame, .. } => {
                self.sent.push(Sent {
                    source,
                    time,
                    has_tag: has_tag(self.tpids, frame),
                    has_ended: false,
                })?;
            }
            RecordedEvent::Left { number, .. } => {
                self.end(*number);
                self.leave(source.capture, &[*number]);
            }
            RecordedEvent::LeftOneOf { numbers, .. } => self.doubt(source, numbers)?,
            RecordedEvent::Strayed { .. } => self.strays.push(source)?,
            _ => {}
        }
        Ok(())
    }

    /// Notes an event.
    fn note(&mut self, timed: &TimedEvent<'_>) -> Result<(), AllocError> {
        match timed.source {
            Some(source) => self.see(timed.time, source, &timed.event),
            None => {
                if let RecordedEvent::Lost { number } = &timed.event {
                    self.end(*number);
                }
                Ok(())
            }
        }
    }

    /// Whether the frame of a number is open at a time: it neither left nor is lost or used up, and where it is doubtful its time isn't up.
    fn is_open(&self, number: u32, sent: &Sent, lost: Option<u64>, time: u64) -> bool {
        if sent.has_ended || self.doubts.is_used_up(number) {
            return false;
        }
        match lost {
            Some(lost) if self.doubts.is_doubtful(number) => {
                sent.time.saturating_add(lost.saturating_mul(1_000_000)) > time
            }
            _ => true,
        }
    }

    /// The frames that are open at a time.
    fn open_at(&self, lost: Option<u64>, time: u64) -> Result<Vec<Source>, AllocError> {
        let mut open = Vec::new(self.alloc);
        for (number, sent) in self.sent.iter().enumerate() {
            let Ok(number) = u32::try_from(number) else {
                break;
            };
            if self.is_open(number, sent, lost, time) {
                open.push(sent.source)?;
            }
        }
        Ok(open)
    }
}

/// The greatest time of the frames of captures.
fn last_time(captures: &[Capture<'_>]) -> u64 {
    let mut last = 0;
    for capture in captures {
        for frame in capture.frames {
            last = frame.time.max(last);
        }
    }
    last
}

/// Frames in order of their records.
fn in_order(alloc: Global, frames: &[Source]) -> Result<Vec<Source>, AllocError> {
    let mut frames = Vec::from_slice(alloc, frames)?;
    frames.sort_by_key(|source| source.place)?;
    Ok(frames)
}

/// What is to be said of a history that was made of captures.
pub(crate) fn find(
    alloc: Global,
    captures: &[Capture<'_>],
    settings: &RecordSettings<'_>,
    recording: &Recording<'_>,
) -> Result<Findings, AllocError> {
    let mut finder = Finder::new(alloc, captures.len(), settings.tpids)?;
    for timed in &recording.events {
        finder.note(timed)?;
    }
    let passed = &recording.passed;
    let mut left = Vec::from_slice(alloc, &finder.strays)?;
    // Frames that were on their way left before any of their core was seen to be sent, whatever the clocks are.
    if !settings.late {
        left.extend_from_slice(&passed.early)?;
    }
    let open = finder.open_at(settings.lost, last_time(captures))?;
    Ok(Findings {
        other: in_order(alloc, &passed.other)?,
        unread: in_order(alloc, &passed.unread)?,
        early: in_order(alloc, &passed.early)?,
        may_begin_late: !settings.late && may_begin_late(captures, settings, &passed.early),
        unwritable: in_order(alloc, &passed.unwritable)?,
        doubtful: in_order(alloc, &finder.doubtful)?,
        strays: in_order(alloc, &finder.strays)?,
        may_end_early: !settings.early && may_end_early(captures, &finder.strays),
        ahead: frames_ahead(alloc, captures, settings, &left)?,
        open: in_order(alloc, &open)?,
        untagged: without_tags(alloc, captures, settings.tpids, &finder.left_tagged)?,
    })
}
