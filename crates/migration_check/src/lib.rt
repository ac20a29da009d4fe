//! Whether requests are a migration: whether they lead from one configuration to another so that no frame, whenever it comes, is treated
//! as neither of the two treats it.
//!
//! **A guess, then a check.** How such requests are found is no part of this crate. [`is_migration`] takes any requests, carries them out, and
//! looks at every frame at every port after each of them. Its contract is the definition of a migration: what it lets through is one. Of what it
//! refuses nothing is promised; [`follow`] says of one configuration on a way exactly whether it tears a frame at a port.
//!
//! **Which ports.** A port that no managed entity names drops every frame, by whatever of the configurations. So only the ports are looked at that
//! some configuration on the way names.
//!
//! **Which frames.** Where a message leaves what the rows of a port ask as it was, each frame still has the row at its place. So only the frames of rows
//! that changed are looked at, and all of them where rows come, go or ask something else.
#![tactic(auto)]

mod accepting;
mod aim;
mod equal;
mod following;
mod hitless;
mod migration;
mod ports;
mod reaching;
mod same;
mod telling;

pub use accepting::entities_after;
pub use aim::{Aim, Wanted};
pub use following::{Moment, follow};
pub use migration::is_migration;
pub use same::hold_the_same;
