//! Scripts and the answers to them as text: what each message asks or answers, by the names of its action, class and
//! attributes, and how each frame is read.
//!
//! **A line at a time.** [`decode`] takes a script or a dialogue line by line, and holds one. Of the lines before it knows only
//! which part of a table is expected, and the bytes of an entry that isn't whole yet.
//!
//! **Nothing is left out.** Contents whose action or class isn't known are shown by their bytes, and so are bytes behind what is
//! understood, where they aren't 0.
#![tactic(auto)]

mod attributes;
mod attributes_json;
mod decoding;
mod decoding_json;
mod frame;
mod frame_json;
mod line;
mod lines;
mod messages_json;
mod mistake;
mod names;
mod reply;
mod request;
mod table_parts;

pub use decoding::decode;
pub use decoding_json::{decode_json, put_line_json};
pub use frame::{put_frame, put_view};
pub use frame_json::{put_tag_json, put_view_json};
pub use line::{ScriptLine, read_script_line};
pub use lines::LineReader;
pub use mistake::{ScriptMistake, find_mistake, find_script_mistake};
pub use names::{action_name, result_name};
pub use reply::put_reply;
pub use request::put_request;
