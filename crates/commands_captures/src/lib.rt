//! The command `forward`: which frames of a capture leave, with which tags and in which GEM port.
//!
//! What becomes of frames is found by the crate `bench_forward`.
#![tactic(auto)]

mod forwarding;

pub use forwarding::forward;
