//! What configurations make of a frame, side by side, as text and as JSON: which frames two of them treat differently, and which a change treats
//! on its way as neither its beginning nor its end does.
//!
//! What is said here is found by the crate `frame_classes`, whose contract ties it to the meaning of every frame, and by the plain walk of
//! `frame_meaning`, which is that meaning for the frame that is shown; this crate writes it.
#![tactic(auto)]

mod differences;
mod fate;
mod tears;
mod writing;

pub use differences::{Compared, DifferenceList};
pub use fate::{Fate, put_fate};
pub use tears::{Moment, ShownTear, TearList};
