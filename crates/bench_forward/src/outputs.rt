//! Where what comes of frames is written.
use std::io::Write;

/// Where what comes of frames is written, each where it is asked for.
#[derive(Drop)]
pub struct Outputs<W: Write, D: Write, V: Write> {
    /// The capture of the frames that leave, in the pcapng format.
    pub packets: Option<W>,
    /// The capture of the frames that are dropped, in the pcapng format.
    pub dropped: Option<D>,
    /// The lines of what comes of each frame.
    pub verdicts: Option<V>,
}
