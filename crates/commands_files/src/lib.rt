//! What several commands do: files, captures and traces read, and what is said where one can't be had.
//!
//! A function that writes why something can't be had gives the status of the command. [`Unread`] watches the output for all of them.
#![tactic(auto)]

mod captures;
mod files;
mod fronted;
mod outputs;
mod pieces;
mod reports;
mod script_input;
mod several;
mod traces;
mod unread;
mod written;

pub use captures::{
    Naming, Packets, explain_fault, next_frame, open_frames, packets_of, report_capture, report_cut,
};
pub use files::{open_named, read_whole, refuse_twice, report_file, report_unread};
pub use fronted::Marked;
pub use outputs::{Output, Taken, create_output};
pub use pieces::{Capture, History, HistoryFile, read_capture};
pub use reports::{report_decoding, report_text, report_value, without_memory};
pub use script_input::{ScriptInput, open_script};
pub use several::{OverFile, over_files, shown_name};
pub use traces::{
    Linted, apply_kept, apply_linted, apply_named, apply_trace, read_trace, report_bad_line,
    report_short, report_until, trace_of,
};
pub use unread::{Silenced, Unread, Watched};
pub use written::{line_of, lines_until, script_of};
