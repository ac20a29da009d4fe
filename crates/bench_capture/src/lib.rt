//! The frames of a capture file with their times, whichever format it has: the classic one of libpcap or pcapng.
//!
//! **The definitions** stand in `specs/`: a frame (Recorded), the frames up to the first fault (Reading), the records of a classic
//! capture with their times (Classic), and what a file of either format holds (File). A file in the pcapng format is told by its
//! first four bytes, `0a 0d 0d 0a`, and is read as `bench_pcapng` defines it; any other is read as `capture` does.
//! [`law_of_classic_captures`] and [`law_of_pcapng_captures`] tie the definitions to theirs.
//!
//! **From a slice.** [`CaptureFrames`] gives one frame after the other, each as a slice of the file.
//!
//! **From a reader.** [`FrameReader`] reads a file in pieces, into one buffer of 512 KB that is used again and never grows: every record
//! of the classic format fits in it. A frame is a slice of the buffer. A block of the pcapng format that is longer than 262,176 bytes
//! is passed over as its bytes come, but for those of its packet, which are kept until the block's end was seen; of the options of an
//! interface one at a time is held. So memory doesn't depend on how long the file is, nor on a length that a file gives, but for the
//! interfaces of a section.
#![tactic(auto)]

mod classic;
pub mod fault;
mod format;
pub mod frames;
pub mod laws;
mod pieces;
pub mod reader;
pub mod recorded;
mod span;
mod turn;
mod window;

pub use fault::{CaptureFileFault, NextFrameFault, ReadFault};
pub use frames::CaptureFrames;
pub use laws::{law_of_classic_captures, law_of_pcapng_captures};
pub use reader::FrameReader;
pub use recorded::RecordedFrame;
