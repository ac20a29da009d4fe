//! What was seen.
use crate::among::Among;
use crate::digits::Digits;
use crate::extent::Extent;
use crate::gem::SeenGem;

/// What a line of a history says was seen. Numbers stand in front of a frame in this order, so that an event has 32 bytes.
#[derive(Drop)]
pub enum Event<'a> {
    /// A message was sent to the unit.
    Sent {
        message: Digits<'a>,
    },
    /// A reply of the unit was seen.
    Replied {
        reply: Digits<'a>,
    },
    /// A reply that isn't the model's, and is taken for the answer to the nearest request that it can answer. No line of a history says
    /// so: the judge puts it where it goes on behind a wrong reply.
    Excused {
        reply: Digits<'a>,
    },
    /// A frame was sent into a port. Frames are numbered from 0, in the order of these events.
    Entered {
        port: u16,
        extent: Extent,
        frame: Digits<'a>,
    },
    /// The frame of a number was seen to leave by a GEM port, with these bytes.
    Left {
        gem: SeenGem,
        extent: Extent,
        number: u32,
        frame: Digits<'a>,
    },
    /// A frame was seen to leave by a GEM port, with these bytes, and is one of these frames: which of them can't be seen.
    LeftOneOf {
        gem: SeenGem,
        extent: Extent,
        among: Among<'a>,
    },
    /// A frame was seen to leave by a GEM port, with these bytes, that no open frame can be: it was never sent, or has left before.
    Strayed {
        gem: SeenGem,
        extent: Extent,
        frame: Digits<'a>,
    },
    /// The frame of a number is known to have been dropped.
    Dropped {
        number: u32,
    },
    /// The frame of a number was not seen to leave while it was waited for.
    Lost {
        number: u32,
    },
    /// What the unit had been sent up to so many replies, or up to the last one seen so far, is in force for every frame that is sent
    /// later.
    Waited {
        replies: Option<u32>,
    },
    /// The observation ended.
    Ended,
    /// Nothing, as an empty line or a remark.
    Nothing,
}
