//! The commands `diff` and `hitless`: what a change of the configuration does to frames, of every frame.
//!
//! What two configurations treat differently, and what one between two others does as neither, is found by the crate `frame_classes`, and written
//! by `text_every_frame`.
#![tactic(auto)]

mod comparing;
mod moments;
mod sides;

pub use comparing::diff;
pub use moments::hitless;
pub use sides::{BothSides, sides_of};
