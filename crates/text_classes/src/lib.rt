//! The classes of the frames that come in at ports, each with a frame, as lines, as a script and as JSON.
//!
//! What is said here is found by the crate `frame_classes`, whose contract ties it to the meaning of every frame; this crate writes it.
#![tactic(auto)]

mod form;
mod line;
mod list;
mod object;
mod words;

pub use form::Form;
pub use list::ClassList;
pub use object::{put_example, put_use};
pub use words::{ClassWords, UseWords};
