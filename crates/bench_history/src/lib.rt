//! Histories: what one observer, with one clock, saw at a unit. A history is a text of lines, each of which is an event, and
//! [`read_history`] reads it once, from front to back.
//!
//! A line is good or bad in two steps. `specs/Line.antt` defines what it says by itself, and `specs/History.antt` behind which lines
//! it may stand: a frame ends once, behind the line that sent it, replies are waited for once they were seen, and behind the end of the
//! observation nothing is seen. For the second step the reader keeps a flag for each frame, by its number, a count of replies, and
//! whether the observation ended, so it never looks back.
//!
//! Where one of several frames left, a line names them all. They are doubtful from there on: none of them ends. Once as many such lines
//! name only frames among them as they are, all have left, and they are used up. For this the reader keeps of each such line its frames,
//! how many lines are missing, and the last frame that it or one above it names; and two flags for each frame. A line is compared with
//! those alone that name frames as late as its own first one: the others end before it.
//!
//! A text that several threads read part by part is one of [`Pieces`]: each line lies whole in one of them, and the events are the same.
//!
//! The bytes of messages and frames stay in the text as digits, of which an event has a checked slice: histories are long, and few of
//! their bytes are needed more than once. Memory grows with the number of lines, and of doubtful frames.
#![tactic(auto)]

mod among;
mod digits;
mod doubts;
mod event;
mod extent;
mod fault;
mod gem;
mod history;
mod joining;
mod line;
mod number;
mod numbers;
mod piece;
mod pieces;
mod reading;
mod seen;
mod watch;
mod words;

pub use among::Among;
pub use digits::Digits;
pub use doubts::Doubts;
pub use event::Event;
pub use extent::Extent;
pub use fault::HistoryFault;
pub use gem::SeenGem;
pub use history::{read_history, read_history_watched};
pub use numbers::Numbers;
pub use pieces::Pieces;
pub use watch::ReadWatch;
