//! Room for the bytes that are read.

use script_lines::MOST_SPELLED;

/// Room for a frame as it was sent and for one as it was seen.
#[derive(Drop)]
pub struct Buffers {
    pub(crate) sent: [u8; MOST_SPELLED],
    pub(crate) seen: [u8; MOST_SPELLED],
}

impl Buffers {
    /// Room for two frames.
    pub fn new() -> Self {
        Buffers {
            sent: [0; MOST_SPELLED],
            seen: [0; MOST_SPELLED],
        }
    }
}
