//! Which frames are looked at.

/// Which frames are looked at.
#[derive(Clone, Copy)]
pub struct Frames {
    /// The port at which they come in, or None for each that managed entities name.
    pub port: Option<u16>,
    /// How many bytes they have at least.
    pub least: u16,
}
