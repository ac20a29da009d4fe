//! What stands below a deviation: what differs, in the words of `decode`, what decided it, and where the event was seen.
//!
//! The deviation is found by the crate `bench_judge`. What is said here is looked for in the history again, and only where it deviates: the
//! lines above it lead to the managed entities by which the frame was judged, and the crate `explain` says which entry decided.
#![tactic(auto)]

mod beside;
mod bytes_difference;
mod carried;
mod compared_part;
mod deciding;
mod frame_difference;
mod lines;
mod observed;
mod reply_comparison;
mod reply_difference;
mod seen_elsewhere;
mod shown_frame;
mod source;
mod tag_difference;
mod unanswered;

pub use beside::write_beside;
pub use carried::accepted_before;
pub use observed::{Lines, Observed};
pub use shown_frame::ADDRESSES;
