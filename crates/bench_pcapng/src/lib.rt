//! Captures in the pcapng format, as Wireshark and tshark write them: the frames of a file, read from a slice of it.
//!
//! **The format.** A file is blocks, one behind the other. Each is a type (4 bytes), its length (4), its body, and its length again
//! (4). The length counts all of these, and is a multiple of four. Read are section header blocks, interface description blocks, and
//! the enhanced, simple and obsolete packet blocks; the others are passed over by their length.
//!
//! **The definitions** stand in `specs/`: numbers in the writer's byte order (Numbers), where a block ends and in which order it is
//! written (Blocks), an interface and its options (Interfaces), nanoseconds (Times), a packet (Captured), what a block does (Effects),
//! and with these the packets of a file and its first fault (Reading). Where several things are wrong with a block, its fault is the
//! one that stands first there.
//!
//! **The way.** [`Pcapng::open`] reads the first block, and each [`Pcapng::next_packet`] goes on to the next packet. A packet's bytes
//! are a slice of the file. Memory is taken for the interfaces of the section alone. [`Blocks`] is the same without the bytes, for a
//! file that is held in pieces. [`Blocks::pass_over`] begins to pass over a long block, [`Passing::let_go`] says which of its bytes are
//! let go as they come, and [`Blocks::read_rest`] reads its end: what is to be read stays what it would be if the block were held
//! (Passing). The bytes of its packet are kept until then, and of an interface one option at a time is held.
#![tactic(auto)]

mod block;
pub mod blocks;
mod effect;
pub mod fault;
mod interface;
mod options;
mod order;
mod outcome;
pub mod packet;
mod packet_block;
pub mod passing;
pub mod pcapng;
mod section;
mod time;
mod walk;

pub use blocks::{Block, Blocks, Located};
pub use fault::PcapngFault;
pub use packet::Packet;
pub use passing::{Passing, Past};
pub use pcapng::{Pcapng, is_pcapng};
