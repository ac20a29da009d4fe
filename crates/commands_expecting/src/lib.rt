//! The command `expect`: whether frames end, after a trace, as is expected of them.
//!
//! What is expected is read by the crate `text_expectations`; which expectations hold, of every frame, is found by `expectation_rows`, and
//! written by `text_outcomes`.
#![tactic(auto)]

mod expecting;
mod reading;

pub use expecting::expect;
