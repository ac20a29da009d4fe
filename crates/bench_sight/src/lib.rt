//! Whether a frame ends, by entities, as it was seen to.
//!
//! Of the frame that was sent, and of the one that was seen to leave, all bytes may be known, or a front. `specs/Sight.antt` defines what
//! of them agrees. [`ends_as`] decides it exactly.
//!
//! Payloads are long and mostly spelled alike, so only the first bytes of a frame are read, and its other digits are compared as they
//! stand. Nothing is copied, and no memory is taken.
#![tactic(auto)]

mod buffers;
mod digits;
mod ending;
mod enough;
mod gem;
mod head;
mod known;
mod lengths;
mod spelled;

pub use buffers::Buffers;
pub use ending::ends_as;
pub use enough::is_enough;
