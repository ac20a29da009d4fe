//! Messages to the managed entities and Ethernet frames that are drawn, for tests and for programs that take times: the same in
//! each run, so that what fails once fails again.
//!
//! [`Draws`] draws them. Few instances, ports, tags and keys are drawn from, so that messages meet the same entities again and
//! again, and frames meet their rules: entities come and go, tables and mappers move between ports, and of the requests some are
//! refused. [`request`] and the functions beside it make requests by what they ask, and [`message`] makes one of its digits.
#![tactic(auto)]

mod asking;
mod draws;
mod frame;
mod frames;
mod messages;
mod standing;
mod wild;

pub use asking::{
    contents, create_gem_port, create_interwork, create_mapper, create_table, delete, request, set,
};
pub use draws::Draws;
pub use frame::{DOUBLE, UNTAGGED};
pub use messages::PORTS;
pub use standing::{PORT_257, message};
