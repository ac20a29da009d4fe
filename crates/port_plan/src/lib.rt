//! What is compiled for the frames that come in at one port: a table and the routes of a mapper.
//!
//! A [`CompiledTable`] is an extended VLAN tagging operation configuration data (ITU-T G.988, clause 9.3.13) with its index and
//! a compiled treatment for each of its entries; [`Routes`] are those of an 802.1p mapper service profile (clause 9.3.10), a GEM
//! port or a reason for each priority. Each is one definition over the managed entities, and one function that compiles it.
//!
//! A change costs what it touches: a table compiles again what differs from the one that it was ([`CompiledTable::follow`]), and
//! routes say whether they were read from an instance ([`Routes::reads`]), so that those of other mappers stay as they are.
//!
//! A [`PortPlan`] is lent, and forwards any number of frames: it reads the head of a frame as words, finds the number of the
//! entry, makes the words of the outgoing tags by masks, and takes the route of their priority. Each number of received tags
//! has a path of its own. What it gives is the meaning of the frame (`frame_meaning`).
#![tactic(auto)]

mod compiled_table;
mod dscp;
mod mapper_routes;
mod port_plan;
mod routes;
mod treats;

pub use compiled_table::CompiledTable;
pub use port_plan::PortPlan;
pub use routes::Routes;
