//! The command `run`: the frames of a capture forwarded while a trace is applied.
//!
//! What a run does, and the lines that it writes, are the crate `run_capture`'s, whose contracts tie them to the meaning of frames.
#![tactic(auto)]

mod running;

pub use running::run;
