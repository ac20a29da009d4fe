//! What came of the frames of a capture, as text and as JSON.
//!
//! What is said here is counted by the crate `bench_forward`, whose contracts tie it to the meaning of frames; this crate writes it.
#![tactic(auto)]

mod totals_json;
mod totals_text;

pub use totals_json::write_totals_json;
pub use totals_text::write_totals;
