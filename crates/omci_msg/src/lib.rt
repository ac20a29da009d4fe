//! Baseline OMCI messages (ITU-T G.988, annex A): the requests that a line terminal sends, and
//! the replies that an ONU gives. What the bytes of a message mean is defined in
//! `specs/Message.antt`. No call takes memory.
#![tactic(auto)]

pub mod action;
pub mod fault;
mod header;
pub mod laws;
pub mod reading;
pub mod reply;
pub mod request;
pub mod writing;

pub use action::{Action, OtherCode};
pub use fault::MsgFault;
pub use laws::{law_of_action_codes, law_of_spellings};
pub use reading::{read, read_reply};
pub use reply::Reply;
pub use request::Request;
pub use writing::{write, write_request};
