//! Where two configurations of a port are the same for every frame: by both it has the same class, and is seen alike.
//!
//! Two configurations see frames alike where their lists of rows do (frame_rows, frame_classes). What a table uses for a frame isn't seen.
//! So the rows are compared once more, each with a tag that says its use in place of what it makes of its frames.
#![tactic(auto)]

mod equal;
mod sameness;

pub use equal::{are_same_asks, is_same_row};
pub use sameness::are_same;
