//! The command `cover`: which frames a test must send after a trace.
//!
//! The classes of the frames that come in at a port, each with a frame, are found by the crate `frame_classes`, and written by
//! `text_every_frame`.
#![tactic(auto)]

mod covering;
mod sending;

pub use covering::cover;
