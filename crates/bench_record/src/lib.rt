//! Histories from captures: what an observer with one clock saw at a unit, made of the frames that were captured on its wires. A history
//! is the text that the crate `bench_history` reads and `bench_judge` judges.
//!
//! **The definition** stands in `specs/`. Recorded has the history that captured frames show: the frames are put in order of time, and
//! at one time by their kind; each is seen in turn; waits and losses are added at their times; and the events are put in order again.
//! It builds on messages in Ethernet frames (Messages), on what a unit leaves of a frame whatever it does to its tags, the frame's
//! *core* (Cores), on which frames one that leaves may be (Matching), and on the order of events (Moments, Order). Text has the lines.
//! Worked examples stand in `proofs/Examples.antt`.
//!
//! **Matching.** A frame that leaves may be each frame of its core that was sent, wasn't seen to leave, isn't past its time and isn't used
//! up. Where there is one it is that one, where there are several it is one of them, and these are doubtful from then on. The definition
//! looks through all frames that were sent. The program keeps a queue of frames for each key, in a hash table: the addresses, and as many bytes
//! behind the tags as are known of every front, without the zeros that end them. Cores that agree have one key. A frame that isn't open any
//! more leaves its queue for good when one of its key leaves, since no frame opens again, and a queue without frames leaves the table. So each
//! frame that leaves takes time in proportion to its length and to the open frames of its key, and only the sorts of n captured frames take
//! n log n. The hash has no secret: keys that are made to collide are looked through one by one. Index has what ties the queues to the
//! definition, and Spans what is kept of when captures begin and end.
//!
//! **No accusation by the measurement.** A frame that left and is passed over, though it may be one that was sent, is *hidden*: frames that
//! were sent before it and would be lost no earlier aren't told as lost (`proofs/Untold.antt`). Hidden frames come in order of time, so of
//! each frame that is sent it is kept how many came before it; the next one decides. A frame that is sent and passed over leaves no stray,
//! until it would be lost.
//!
//! **Captures that begin late, or end early.** Where frames were on their way as a capture in front of the unit began, one of them could be taken for
//! a frame of its core that was sent since. Where that is set, what leaves until all of them would be lost is passed over, and each is hidden. Likewise
//! where frames were sent behind the end of such a capture: what leaves from its last frame on is passed over. So a line of a frame that leaves is of one
//! that was captured as it was sent, which is among those that the line names (`proofs/SentUnseen.antt`). Given up is what such a line would have
//! shown, and losses beside it.
//!
//! **Bytes** of frames aren't copied: events have slices of them.
//!
//! **What a history can't hold.** Of a frame of over 9,989 bytes, whose digits fit in no line, it has a front, and of over 5,000 where
//! numbers of frames stand behind them. Passed over, each with where it stands, are frames and replies whose numbers have over 32 bits, and
//! frames that leave while they may be each of over 900.
#![tactic(auto)]

mod captured;
mod core_key;
mod event;
mod frame_core;
mod matching;
mod message;
mod open_frames;
mod passed;
mod recording;
mod settings;
mod spans;
mod walk;
mod writing;

pub use captured::{Capture, CapturedFrame, Side, Source, Tap};
pub use core_key::CoreKey;
pub use event::{RecordedEvent, TimedEvent};
pub use frame_core::{FrameCore, core_of};
pub use passed::Passed;
pub use recording::{Recording, record_history, shortest_with};
pub use settings::RecordSettings;
pub use walk::LONGEST_FRAME;
pub use writing::write_history;
