//! A script as a trace: what its messages ask.
//!
//! [`apply_script`] carries them out, one after the other, and passes frames over. What was wrong with a message is told by its line,
//! with its fault or its reply; and of an entry of a table, which line set it. [`read_requests`] reads the requests alone, for a run,
//! and a frame is a bad line there.
#![tactic(auto)]

mod applied;
mod apply;
mod fault;
mod line;
mod requests;
mod setting;

pub use applied::{Accepted, Applied, Faulty, Refused};
pub use apply::apply_script;
pub use fault::ScriptFault;
pub use requests::read_requests;
pub use setting::setting_line;
