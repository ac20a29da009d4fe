//! GEM ports that were seen.

/// The GEM port by which a frame was seen to leave.
#[derive(Clone, Copy, Debug, PartialEq, Eq)]
pub enum SeenGem {
    /// By this one.
    Port(u16),
    /// It wasn't seen, and isn't compared: `any`.
    Any,
}
