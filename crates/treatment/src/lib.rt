//! What becomes of a frame's tags by a rule (ITU-T G.988, 9.3.13, treatment fields): how many of the
//! received tags are removed, and which tags are added. What the tags are is defined in
//! `specs/Treatment.antt`. No call takes memory.
//!
//! A [`Treat`] is a treatment compiled for the frames with one number of received tags. [`treat`] asks for
//! each frame where each field of each added tag comes from, and moves a list of tags. Where a rule serves
//! many frames, that is decided once for each number of tags that its filter lets through (three at most),
//! at 68 bytes each, and anew when the rule or the settings of its table change. A frame then costs six
//! operations on words for each of four tags, without a branch, a loop or a list. `Treats` in
//! `specs/Compiled.antt` says what is promised: each frame with so many tags gets the tags that the
//! treatment gives it.
//!
//! The word of an outgoing tag is made of four sources at once,
//! `fixed | first & outer | last & inner | marking & dscp`. `first` and `last` are the words of the first and
//! the last received tag, `marking` is the priority of the frame's DSCP where a tag has its priority, and a
//! mask is all ones in the fields that are copied from its source, so no bit has two sources. For VID 200
//! and the priority of the inner tag, `fixed` is 0x810000c8 and `inner` 0x0000e000, and the received tag
//! 0x8100a064 makes 0x8100a0c8. A received tag that is kept is made as one that is added would be, with all
//! fields copied from it.
#![tactic(auto)]

pub mod compiled;
mod copy;
mod kept;
mod masks;
mod mix;
pub mod treated;
pub mod treating;

pub use compiled::Treat;
pub use copy::added_tag;
pub use treated::Treated;
pub use treating::treat;
