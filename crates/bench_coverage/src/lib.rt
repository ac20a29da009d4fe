//! The coverage of an explained history: which classes of frames were tried by each configuration that its frames met, and which not.
//!
//! A history that a right unit explains (bench_judge) says nothing of frames that weren't sent. [`coverage`] says which ones these are: the
//! classes of the frames that come in at a port (frame_classes) are all that a configuration can do with any frame, and each judged frame
//! has one of them.
//!
//! **Stretches.** A *version* is a number of accepted requests. Versions in a row by which every frame has the same class at a port, and is
//! seen alike there, are one *stretch*, named by its first. So a message that changes nothing for a port's frames doesn't ask for all of
//! them once more; and a stretch that comes back behind another is a stretch of its own.
//!
//! **Which frames count.** Those that ended and were judged, each by the least version that it may have. Of a frame of which only a front is
//! known, the front gives the class.
//!
//! **The way.** The frames are put in order, by ports and within a port by versions. A passage goes once through the versions of a port,
//! with the managed entities before and behind each message; where some frame tells them apart, a stretch begins (passage). The first
//! version of a port that a frame met mostly begins one, and then none before it is looked at. A frame's class is found by an index of the
//! table and the compiled plan, whatever the number of entries (uses); that of a frame which begins as one before it did is known.
#![tactic(auto)]

mod covering;
mod hints;
mod known;
mod marking;
mod passage;
mod stretch;
mod uses;

pub use covering::coverage;
pub use stretch::Stretch;
