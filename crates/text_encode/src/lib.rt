//! Scripts in words: `encode` makes the lines of a script of them, and `decode_source` says the lines of a script in these words.
//!
//! **A line for a line.** Each line in words is one line of the script, so that both count alike.
//!
//! **What is said in words is read again.** [`decode_source`] writes words only where [`encode`] makes the same bytes of them, and else
//! the line as it stands in the script.
#![tactic(auto)]

mod attribute_words;
mod attributes;
mod dscp;
mod encoding;
mod entity;
mod entry;
mod entry_words;
mod fault;
mod frame;
mod frame_words;
mod header;
mod hexadecimal;
mod identifiers;
mod message;
mod output;
mod request_words;
mod source;
mod statement;
mod value;

pub use encoding::encode;
pub use fault::EncodeFault;
pub use source::decode_source;
pub use statement::is_in_words;
pub use text_words::without_mark;
