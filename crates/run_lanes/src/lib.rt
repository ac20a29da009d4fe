//! Lanes that forward frames while a control applies a trace of messages.
//!
//! **What runs where.** [`run_lanes`] opens a control with its lanes. Frames are cut in order into batches, and batch k is of lane
//! k mod `lanes`. Each lane goes to a thread of its own, forwards its batches in ascending order and comes back; it enters once for
//! each, so a batch is of one version. Where the frames are those of a capture in pieces ([`run_lanes_over`]), a lane lists the
//! frames of a batch when it comes to it. Of a batch are kept its number, its version and its counts, which go into a book that all
//! lanes share. The control stays on its caller's thread, and carries the requests of the trace out. It publishes after each
//! accepted one while the lanes forward; or, with `after`, once before they begin. Where no thread can be made, the
//! work is done in turn, by the same functions.
//!
//! **What waits for what.** Lanes never wait for the control, nor for one another but at the book's lock, once for a batch. The
//! control waits, as it publishes, for lanes that still hold the version before the last one, so small batches keep it short. Both
//! wait at the gate, as long as that pleases: it is how a test holds them in step, and how a caller stops a run. Nothing
//! is locked for a frame.
//!
//! **What is known afterwards.** While it runs, nobody can say which version a batch will have. Yet whatever the order of steps,
//! each version is that of a prefix of the messages that the trace leaves accepted, and it never falls along a lane. The batch's
//! counts are those of what its frames mean after that prefix: `IsRun` in `specs/Run.antt`. With `after` all versions are the last
//! one.
//!
//! **Why it is known.** A lane knows the lists of requests that it held, each of which is a prefix of the next. Back from its thread
//! it doesn't know yet how they relate to the control's. So the control publishes once more, and each lane learns the token and
//! enters again. It then holds a list of which the published one is a prefix; where both have one number, they are the same. So
//! all that the lane held before are prefixes of the accepted list, and the length of each is the version in its tally. A lane
//! whose number differs makes the run `Refused`. With `after` a lane has learnt the whole list before its first batch, so it held
//! nothing shorter.
//!
//! The book is behind a lock, so no contract says what is in it but that its total is the sum of its parts; the counts of a run
//! are summed from the tallies.
#![tactic(auto)]

mod control_work;
mod fault;
mod frames;
mod job;
mod lane_work;
mod run;
mod settling;
mod threads;

pub use fault::LaneFault;
pub use frames::RunFrames;
pub use run::{Ran, RunInput, RunSource, run_lanes, run_lanes_over};
