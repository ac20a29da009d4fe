//! The command `record`: the history that captures show, for `judge`.
//!
//! The history is made by the crate `bench_record`. The captures that are asked for are read (inputs), and their frames listed (seeing), each by
//! its interface where these are named (interfaces). Beside the history stands what a lab has to know of it (finding, clocks, unseen, tags), and it is said
//! on standard error (saying).
#![tactic(auto)]

mod clocks;
mod finding;
mod inputs;
mod interfaces;
mod recording;
mod saying;
mod seeing;
mod tags;
mod unseen;

pub use recording::record;
