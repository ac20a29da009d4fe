//! Which bytes are a right reply to a request.
//!
//! A model answers each request with one reply. A unit's reply is right where it has the model's identifier, action, class and
//! instance, and the same contents as far as these are compared. `specs/Replies.antt` defines it.
//!
//! A real unit has more classes of managed entities than a model, and other read-only values. So there are two measures: every
//! byte of the contents, or only those that the model determines ([`Compared`]).
#![tactic(auto)]

mod compared;
mod expected;
mod message;

pub use compared::{Compared, is_own, returned_width};
pub use expected::{Expected, has_head_of, is_reply_to};
pub use message::{message_bytes, read_answered, read_asked};
