//! The managed entities of an optical network unit with what is compiled of them for Ethernet frames upstream (ITU-T G.988,
//! clause 9).
//!
//! **The plan** is what is compiled of the entities, and [`Live`] keeps both: each table with its index and a compiled treatment
//! for each of its entries, each mapper with a route for each priority, and for each port where its table and its mapper stand.
//! The type keeps all of it that of the entities, and [`Live::plan`] says so. [`Live::port`] lends the plan of one port, a
//! [`PortPlan`], which forwards any number of frames.
//!
//! What a frame's verdict is, and the plain walk that gives it too, stand in `frame_meaning`, and the plan of one port in
//! `port_plan`; who forwards needs this crate alone.
//!
//! Nothing but [`Live::new`] and [`OutFrame::append_to`] takes memory.
#![tactic(auto)]

ghost use Rattle.forward_plan.specs.Compiled.{CompiledIsOne};

mod attached;
mod attaching;
mod compiled;
mod compiling;
mod live;
mod naming;
mod part;
mod plan;
mod ports;
mod setting;

pub use compiled::Compiled;
pub use frame_meaning::{NoMemory, OutFrame, Reason, Verdict, plain_walk};
pub use live::Live;
pub use plan::Plan;
pub use port_plan::PortPlan;
pub use ports::PORTS;

/// What is compiled of entities is determined by them: plans that are compiled of the same entities have the same table for each
/// of their tables, the same routes for each of their mappers, and the same attached to each port.
pub fn law_of_compiled()
    ensures { CompiledIsOne }
{}
