//! Frames in batches, on one thread or many, and the batches' reports gathered.
//!
//! **A batch** is a list of frames that came in at one port, forwarded by what one lane holds; so all of it by one version. The
//! port is looked up once, and the verdicts are put where they stay. [`run_batch`] does it on its caller's thread, waits for
//! nobody and gives a [`Report`], whose type keeps that its counts are those of its verdicts. [`run_batch_into`] puts the next batch
//! into the same report. One lane a thread, each with its own batches and one report, is the fast way to use several processors.
//!
//! **A long list on more threads.** [`forward_all`] cuts a list into pieces of some thousand frames, which `rayon` spreads over the
//! processors; a frame alone takes less time than it takes to hand it to a thread. What it gives is the plain list, in order.
//!
//! **Reports and their gathering** are the crate `batch_reports`'s, which is proved beside the lanes. Its items are this crate's too:
//! [`gather`] puts reports in the order of their numbers, and [`gather_tallies`] and [`gather_versions`] do so for a long run.
#![tactic(auto)]

mod batch;
mod forwarding;
mod pieces;

pub use batch::{run_batch, run_batch_into};
pub use batch_reports::{
    Batch, BatchFault, Gate, GatherFault, Gathered, GatheredTallies, GatheredVersions, Report,
    Tally, gather, gather_tallies, gather_versions, law_of_arrival, law_of_misfits,
};
pub use forwarding::forward_all;
