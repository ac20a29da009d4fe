//! How the frames of a capture are forwarded: what a run is asked for.
#![tactic(auto)]

mod settings;

pub use settings::{BATCH_LIMIT, DEFAULT_BATCH, DEFAULT_LANES, LANE_LIMIT, RunSettings};
