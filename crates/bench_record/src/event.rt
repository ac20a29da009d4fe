//! The events of a history that is made of captures.
ghost use Rattle.std.specs.Prelude.{◌≡◌};
ghost use Rattle.bench_record.specs.Moments.{moment_of, rank_of};
ghost use Rattle.bench_record.specs.Text.{event_shown, timed_shown};

use crate::captured::Source;
use bench_history::{Extent, SeenGem};

/// What a line of the history says. The bytes are slices of captured frames.
#[derive(Drop)]
pub enum RecordedEvent<'a> {
    /// A message was sent to the unit.
    Sent {
        message: &'a [u8],
    },
    /// A reply of the unit was seen.
    Replied {
        reply: &'a [u8],
    },
    /// A frame was sent into a port. Frames are numbered from 0, in the order of these events.
    Entered {
        port: u16,
        extent: Extent,
        frame: &'a [u8],
    },
    /// The frame of a number was seen to leave, with these bytes.
    Left {
        gem: SeenGem,
        extent: Extent,
        number: u32,
        frame: &'a [u8],
    },
    /// A frame was seen to leave, with these bytes, and is one of several, by their numbers.
    LeftOneOf {
        gem: SeenGem,
        extent: Extent,
        frame: &'a [u8],
        numbers: Vec<u32>,
    },
    /// A frame was seen to leave, with these bytes, and none was open that it could be.
    Strayed {
        gem: SeenGem,
        extent: Extent,
        frame: &'a [u8],
    },
    /// The frame of a number wasn't seen to leave in time.
    Lost {
        number: u32,
    },
    /// What the unit had been sent up to so many replies is in force.
    Waited {
        replies: u32,
    },
}

/// An event and when it took place.
#[derive(Drop)]
pub struct TimedEvent<'a> {
    /// The time, in nanoseconds. A wait or a loss that would come behind what 64 bits hold comes at the greatest of these times.
    pub time: u64,
    /// Where it was seen. A wait and a loss weren't seen in any frame.
    pub source: Option<Source>,
    /// What took place.
    pub event: RecordedEvent<'a>,
}

impl<'a> RecordedEvent<'a> {
    /// Where an event stands among those of one time.
    fn rank(&self) -> u8
        ensures { result ≡ rank_of (event_shown self.now) }
    {
        match self {
            RecordedEvent::Sent { .. } => 0,
            RecordedEvent::Entered { .. } => 1,
            RecordedEvent::Replied { .. } => 2,
            RecordedEvent::Waited { .. } => 3,
            RecordedEvent::Left { .. }
            | RecordedEvent::LeftOneOf { .. }
            | RecordedEvent::Strayed { .. } => 4,
            RecordedEvent::Lost { .. } => 5,
        }
    }
}

impl<'a> TimedEvent<'a> {
    /// Where it stands among events of all times.
    pub(crate) fn moment(&self) -> u128
        ensures { result ≡ moment_of (timed_shown self.now) }
    {
        8 * u128::from(self.time) + u128::from(self.event.rank())
    }
}
