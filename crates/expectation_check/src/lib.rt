//! Whether expectations hold, of every frame that comes in at a port.
//!
//! An expectation speaks of the frames that its filter admits (`frame_expectation`). It holds where some frame is admitted and each that is
//! meets it, it is void where none is admitted, and else a frame fails it. Every list of bytes counts as a frame.
//!
//! **Decided by lists of rows.** The crate `expectation_rows` says of which frames three lists of rows tell what, and `frame_classes` lists all
//! of these frames' classes, with a frame of each. So no frame is left out: where none of the listed ones fails, all that are admitted meet the
//! expectation. A second, short list shows whether some frame is admitted.
#![tactic(auto)]

mod checking;

pub use checking::{Outcome, check};
