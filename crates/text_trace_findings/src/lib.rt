//! The findings about the messages of a trace, in words.
//!
//! It promises that every call returns; what is found is shown by tests.
#![tactic(auto)]

mod bridges;
mod copies;
mod set_entries;
mod trace;
mod trace_words;
mod walk;
mod why;

pub use trace::{Head, Missing, TraceFault, TraceFinding};
pub use walk::trace_findings;
pub use why::Why;
