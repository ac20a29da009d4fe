//! The numbers that captures of both formats share.

/// The most bytes of a frame that a record or a block stores.
pub const STORED_LIMIT: u32 = 262_144;

/// The link type of Ethernet.
pub const ETHERNET: u16 = 1;
