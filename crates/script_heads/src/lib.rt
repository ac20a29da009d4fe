//! The first bytes of a frame that a script or a history spells. They decide what becomes of it, so no payload is read for that.
#![tactic(auto)]

mod head;

pub use head::read_head;
