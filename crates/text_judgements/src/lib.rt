//! What a history shows of the unit that it was seen at, as text and as JSON.
//!
//! What is said here is found by the crate `bench_judge`, whose contracts tie it to the meaning of histories; this crate writes it.
#![tactic(auto)]

mod answer;
mod counts;
mod digits;
mod frame_json;
mod judgement_json;
mod judgement_text;
mod told;

pub use judgement_json::{write_deviations_json, write_explanation_json, write_judgement_json};
pub use judgement_text::{write_deviations, write_judgement};
pub use told::Told;
