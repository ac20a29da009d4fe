//! Which classes of frames were tried by a history and which not, as lines and as JSON.
//!
//! What is said here is found by the crate `bench_coverage`, whose contract ties it to the meaning of every frame; this crate writes it.
#![tactic(auto)]

mod covered;
mod lines;
mod object;

pub use covered::{write_covered, write_covered_json};
