//! What a C program asks of the unit in its cell: to answer a message, and to forward a frame.
//!
//! Each call takes a cell, answers by a number, and leaves the cell as full or as empty as it was. In a cell without a unit nothing is
//! read or written. No call takes memory.
#![tactic(auto)]

mod forwarding;
mod messaging;
mod verdict;

pub use forwarding::forward;
pub use messaging::message;
pub use verdict::CVerdict;
