//! What a run reads: capture files, the classic format of libpcap, as slices of the file. Which frames
//! a file holds, and what its first fault is, is defined in `specs/Records.antt`. No call but
//! [`list_frames`] takes memory. [`read_header`] and [`split_record`] are the steps of the others, for
//! a file that is held in pieces. The lines of a script, which a run reads too, are those of
//! `script_lines`.
#![tactic(auto)]

pub mod fault;
pub mod frames;
pub mod header;
pub mod laws;
pub mod limits;
pub mod listed;
pub mod order;
pub mod pcap;
pub mod record;

pub use fault::CaptureFault;
pub use frames::Frames;
pub use header::{HEADER_LEN, read_header};
pub use laws::law_of_records;
pub use limits::{ETHERNET, STORED_LIMIT};
pub use listed::{ListFault, list_frames};
pub use order::Order;
pub use pcap::Pcap;
pub use record::{RecordFault, split_record};
pub use script_lines::{Line, read_line};
