//! What was passed over.

use crate::captured::Source;

/// Which captured frames have no event in a history, in the order in which they were seen.
#[derive(Drop)]
pub struct Passed {
    /// Frames of the management channel of another Ethertype than 0x88B5.
    pub other: Vec<Source>,
    /// Frames of which too little is known: fewer than 24 bytes of a front, or fewer than 44 behind the Ethertype 0x88B5.
    pub unread: Vec<Source>,
    /// Frames that left while none was open that they could be, and whose own may have been sent unseen: before a capture in front of the unit
    /// began, or as a frame that is passed over. Where there is no capture in front of the unit, or one without a frame, this may always be so.
    /// Where frames were on their way as captures in front of the unit began, all that left while they may have been sent before.
    pub early: Vec<Source>,
    /// Frames that a history can't hold: over 900 are open that they could be, or the number that they or their reply would have is over 32 bits.
    pub unwritable: Vec<Source>,
}
