//! Why a frame goes where it goes: what the managed entities of an optical network unit mean for it (ITU-T G.988, clause 9), step
//! by step.
//!
//! **An explanation** is the list of its steps: which table is in force at the port, how the frame is read, which entries were
//! tried in vain and by which field each failed, which entry is used, the tags that the frame leaves with and where each comes
//! from, the mapper, the priority and its origin, and the entities from the pointer of that priority to the GEM port. Each step
//! is the part of the meaning of frames that it names, and the last step, the verdict, is the meaning itself, so an explanation
//! can't disagree with forwarding. Of a frame that is dropped the step before the verdict is the last that could be taken.
//!
//! **A table** is looked into by [`tried_order`], the order in which its entries are tried, [`number_of`], which place in that order
//! an entry has, and [`shadow_of`], which finds an entry that leaves another one no frame.
#![tactic(auto)]

mod covering;
mod entries;
mod explaining;
mod force;
mod laws;
mod mismatch;
mod order;
mod outgoing;
mod priority;
mod step;

pub use covering::shadow_of;
pub use explaining::explain;
pub use force::{TableInForce, table_in_force};
pub use laws::law_of_steps;
pub use mismatch::{Mismatch, TagField};
pub use order::{number_of, tried_order};
pub use outgoing::{OutgoingTag, TagOrigin};
pub use priority::PriorityOrigin;
pub use step::Step;
