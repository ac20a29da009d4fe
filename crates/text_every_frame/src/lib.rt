//! What is found of every frame after traces, written port by port. The commands `cover`, `diff` and `hitless` write it by this crate, and so does
//! the library for C.
//!
//! It is the classes of frames; which frames two configurations treat differently; and which a change treats on its way as neither its beginning nor its
//! end does. The crate `frame_classes` finds them, and `text_classes` and `text_differences` write each.
//!
//! **What is promised.** [`write_differences`] gives that two configurations are the same only where every frame is seen alike by both, at the port that
//! is asked for or at every port, and that they differ only where some frame isn't. The texts, and what is given of a change, are tested.
#![tactic(auto)]

mod change;
mod classes;
mod comparing;
mod frames;
mod links;
mod moments;
mod ports;
mod watching;

pub use classes::write_classes;
pub use comparing::write_differences;
pub use frames::Frames;
pub use moments::write_tears;
pub use ports::ports_of;
