//! What becomes of a frame.
use crate::out_frame::OutFrame;
use crate::reason::Reason;

/// What becomes of a frame that comes in at a port.
#[derive(Drop)]
pub enum Verdict<'a> {
    /// It leaves through the GEM port of this port-ID.
    Forward { gem: u16, frame: OutFrame<'a> },
    /// It is dropped, for the first reason that is found.
    Drop(Reason),
}
