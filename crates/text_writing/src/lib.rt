//! Bytes written whole to a writer that may take them piece by piece, or fail on the way; and why a text isn't written.
//!
//! **Words that several commands tell alike** stand once, as [`no_memory_words`], each ended by a line feed.
//!
//! **A command that looks inside** ends with a [`LookFault`] or without: [`report_look`] writes its words and gives the [`Status`].
//!
//! **How far a command is** a [`ProgressLine`] says on a terminal.
#![tactic(auto)]

mod fault;
mod fault_words;
mod look_fault;
mod mistake;
mod progress;
mod status;
mod whole;

pub use fault::{DecodeFault, TextFault};
pub use fault_words::{
    Words, bad_line_words, bad_trace_words, no_memory_words, read_failed_words, write_failed_words,
};
pub use look_fault::{LookFault, report_look};
pub use mistake::{Expected, Found, Mistake};
pub use progress::ProgressLine;
pub use status::Status;
pub use whole::{WriteFault, write_whole};
