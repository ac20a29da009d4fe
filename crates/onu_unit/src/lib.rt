//! An optical network unit (ONU) whole: it answers OMCI messages and forwards Ethernet frames upstream (ITU-T G.988).
//!
//! **The state of a unit** is that of its desk: the managed entities with their latched table, and the rows of the last MIB upload.
//! `specs/Unit.antt` says what a message is answered in a state, and which state it leaves.
//!
//! **The plan lags behind.** What a message touches is only forgotten in the plan of forwarding. It is compiled when a frame asks for
//! it, so a table that is filled entry by entry is compiled once.
//!
//! **All memory is taken by [`Unit::new`].** No message and no frame takes any.
#![tactic(auto)]

mod unit;

pub use frame_meaning::{OutFrame, Reason, Verdict};
pub use omci_msg::{MsgFault, Reply, Request};
pub use unit::Unit;
