//! The table in force at a port, and why a frame goes where it goes, as text and as JSON.
//!
//! What is said here is found by the crate `explain`, whose contracts tie it to the meaning of frames; this crate writes it.
#![tactic(auto)]

mod failures;
mod rules;
mod rules_json;
mod steps;
mod steps_json;
mod traced;
mod verdict;
mod words;

pub use rules::write_rules;
pub use rules_json::write_rules_json;
pub use steps::{Incoming, write_explanation};
pub use steps_json::write_explanation_json;
pub use traced::{PortEntries, Traced};
pub use verdict::{FrameDigits, VerdictWords};
pub use words::{MismatchWords, OriginWords};
