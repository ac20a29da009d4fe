//! What comes of the frames of a capture that come in at a port of an optical network unit: they are forwarded by its managed entities
//! (ITU-T G.988, clause 9), and what comes of each is written and counted.
//!
//! **The definitions** stand in `specs/`: the blocks of the pcapng format that are written (Blocks), the capture of the frames that leave
//! (Packets) and that of the frames that are dropped (Drops), the line of a verdict (Lines), the number of the entry that is used (Entries), totals (Totals), and with these what comes of
//! a list of frames (Frames). Outcome says what is written and counted by each way to end. The examples in `proofs/Examples.antt` are
//! bytes that a reader can follow by hand.
//!
//! **One frame after the other.** [`forward_frames`] forwards a frame, writes what comes of it and counts it before it reads the next. A
//! fault comes when it is met: all frames in front of it are written and counted then, and a frame that isn't written whole isn't counted.
//!
//! **Memory** is taken before the first frame, whatever the length of the capture: a number and a count for each GEM port that there may
//! be, and an index of the table in force. Nothing is searched in proportion to ports or entries. The bytes of a frame go from the
//! reader's buffer to the writer; its addresses and tags alone are put together before. Two or three writes are made for a frame, so a
//! writer to a file is best buffered.
#![tactic(auto)]

mod block;
mod comment;
mod dropped;
mod drops;
mod entries;
mod fault;
mod forwarding;
mod frames;
mod interfaces;
mod leaving;
mod line;
mod origin;
mod outputs;
mod packet;
mod port_capture;
mod shown;
mod totalling;
mod totals;

pub use dropped::Dropped;
pub use fault::ForwardFault;
pub use frames::{Forwarded, forward_frames};
pub use outputs::Outputs;
pub use port_capture::{write_port_header, write_port_packet};
pub use totals::Totals;
