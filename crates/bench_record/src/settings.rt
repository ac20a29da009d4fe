//! What a history is made by.

/// What a history is made by, beside the captures.
#[derive(Clone, Copy)]
pub struct RecordSettings<'a> {
    /// The types that begin a tag beside 0x8100 and 0x88A8.
    pub tpids: &'a [u16],
    /// Whether zeros that end a frame are looked past where frames are compared: a wire pads short frames.
    pub padded: bool,
    /// How long behind a reply everything that it answers is in force, in milliseconds. None: that isn't known.
    pub wait: Option<u64>,
    /// How long behind its sending a frame is lost that wasn't seen to leave, in milliseconds. It is over the unit's longest delay: a frame that
    /// leaves later is a stray. None: that isn't known.
    pub lost: Option<u64>,
    /// Whether frames were on their way as the captures in front of the unit began. What leaves while it may be one of these is passed over,
    /// whichever frame it could be.
    pub late: bool,
    /// Whether frames were sent behind the end of a capture in front of the unit. What leaves while it may be one of these is passed over, whichever
    /// frame it could be.
    pub early: bool,
}
