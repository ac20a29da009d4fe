//! The command `judge`: whether a right unit may have done what a history says.
//!
//! The judgement is the crate `bench_judge`'s, whose contracts tie it to the meaning of histories.
#![tactic(auto)]

mod above;
mod finding;
mod judging;
mod mistakes;
mod parts;
mod progress;
mod start;

pub use judging::judge_history;
