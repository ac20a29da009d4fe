//! What came of a run as JSON, made of its lines.
//!
//! The lines are the crate `run_capture`'s, whose contract gives them exactly; this crate takes their numbers out.
#![tactic(auto)]

mod run_lines;

pub use run_lines::write_run_json;
