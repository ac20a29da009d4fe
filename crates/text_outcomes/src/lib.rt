//! How expectations fare after a trace, as text and as JSON: which hold, and of each other one a frame that fails it, or that it is void.
//!
//! What is said here is found by the crate `expectation_check`, whose contract ties it to the meaning of every frame, and by the plain walk of
//! `frame_meaning`, which is that meaning for the frame that is shown; this crate writes it.
//!
//! **Versions.** The managed entities after the whole trace are the last version. Where a line is named, an expectation has to hold behind that line
//! and by each version from there on. A port is looked at again where it means something else for frames than it did by the version before.
//!
//! **What is promised.** [`write_outcomes`] gives that each expectation holds by the last version only where each does, of every frame; and that one
//! doesn't only where one doesn't. The texts, and what is given of several versions, are tested.
#![tactic(auto)]

mod asked;
mod following;
mod list;
mod said;
mod writing;

pub use asked::Asked;
pub use writing::write_outcomes;
