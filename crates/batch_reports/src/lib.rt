//! Batches of frames forwarded by what a lane holds, their reports, and the reports gathered.
//!
//! **A batch** is a list of frames that came in at one port, forwarded by one version. The port is looked up once, and the verdicts are
//! put where they stay. [`report_batch`] does it by a [`LaneView`], which says what a lane holds, waits for nobody and gives a
//! [`Report`], whose type keeps that its counts are those of its verdicts. [`report_batch_into`] puts the next batch into the same
//! report.
//!
//! **Gathering.** Batches end in any order. [`gather`] puts their reports in the order of their numbers and adds their counts up,
//! or says which number is one too many or missing, which [`law_of_misfits`] puts in the list's words. [`law_of_arrival`] says that
//! every order of the same reports gives the same list. A long run keeps no verdicts: [`Report::tally`] drops a report's,
//! [`Report::copy_tally`] leaves them in it, [`gather_tallies`] gathers tallies, and [`gather_versions`] their versions alone.
//!
//! Lanes themselves are the crate `plan_publish`'s, which this one doesn't stand on: it is proved beside it.
#![tactic(auto)]

mod batch;
mod fault;
mod gathering;
mod law;
mod numbered;
mod places;
mod versions;

pub use batch::{
    Batch, Gate, LaneView, MOST_FRAMES, Report, Tally, report_batch, report_batch_into,
};
pub use fault::{BatchFault, GatherFault};
pub use gathering::{Gathered, GatheredTallies, gather, gather_tallies};
pub use law::{law_of_arrival, law_of_misfits};
pub use versions::{GatheredVersions, gather_versions};
