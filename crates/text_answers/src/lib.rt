//! The answers of a replay as JSON, each with the line of the script that it answers.
//!
//! It promises that every call returns; what stands in a text is shown by tests.
#![tactic(auto)]

mod answers;

pub use answers::write_answers_json;
