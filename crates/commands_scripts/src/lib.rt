//! The commands that read a script, or words for one: `replay`, `decode` and `encode`; and the numbers that `help` says in words.
//!
//! Scripts are read and answered by the crates `script_replay`, `text_messages` and `text_encode`. Each command gives its
//! `Status`.
#![tactic(auto)]

mod decoding;
mod encoding;
mod replaying;
mod topics;

pub use decoding::decode_script;
pub use encoding::encode_text;
pub use replaying::replay_script;
pub use topics::{Topic, show_topic, topic_of};
