//! The two bytes that every message has besides its numbers (ITU-T G.988, clause 11.2).

/// The place of the destination bit in a message type, counted from the lowest.
pub(crate) const DESTINATION_BIT: u8 = 7;

/// The place of the bit AR, by which a request asks for an answer.
pub(crate) const AR_BIT: u8 = 6;

/// The place of the bit AK, which an answer has.
pub(crate) const AK_BIT: u8 = 5;

/// The bits of a message type that number the action.
pub(crate) const ACTION_MASK: u8 = 0x1f;

/// The device identifier of the baseline message set.
pub(crate) const BASELINE: u8 = 0x0a;
