//! A capture forwarded while a trace is applied, and what came of it as lines.
//!
//! **What is written** is defined in `specs/Lines.antt`, from the accepted requests, the frames and the versions of the batches:
//! [`run_over`] writes the lines of versions that the batches may have, as `run_lanes` says. With `after` there is one such
//! choice, so the lines are a function of the input, whatever the lanes. [`run_frames`] does the same with frames as they are held, a file
//! whole or in pieces or a list, shows how far it is, and says how many of the frames were cut.
//!
//! **All or nothing.** The whole text, a short line a batch and those of the totals, is made before the first byte of it is
//! written; so a run that finds no memory on the way writes nothing.
//!
//! **The end** has words and a status of its own, which [`report_run`] gives.
#![tactic(auto)]

mod fault;
mod lines;
mod progress;
mod report;
mod run;
mod source;

pub use fault::RunFault;
pub use report::report_run;
pub use run::{run_frames, run_over};
pub use run_settings::RunSettings;
pub use source::FrameSource;
