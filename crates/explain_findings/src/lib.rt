//! What is wrong with the managed entities of an optical network unit, or has no effect, as a list of findings: pointers to
//! nothing, null pointers, GEM ports that carry no frames upstream, instances that no port's frames reach, mappers and tables
//! that stand second at a port, entries that are never used, and ports all of whose frames are dropped.
//!
//! **What a finding claims** is one definition, `specs/Claims.antt`, over the managed entities and over the meaning of frames:
//! what it says of frames it says of every frame. Each finding of [`findings`] is proved to hold what it claims
//! ([`law_of_findings`]).
//!
//! **What isn't found.** Findings are exact in what they claim and no more. A table's entry is found unused where one earlier
//! entry admits all that it admits; several entries that do so together aren't looked for. An instance counts as reached where
//! pointers lead to it from a port, also where the port's table drops each frame before, or where no frame has the priority of
//! the pointer.
//!
//! **Ports.** [`named_ports`] lists those that managed entities name. Every other port drops all frames ([`law_of_named_ports`]).
#![tactic(auto)]

mod append;
mod drawing;
mod drops;
mod edge;
mod finding;
mod gathering;
mod gem_port;
mod graph;
mod interwork;
mod laws;
mod mapper;
mod ports;
mod reach;
mod shown;
mod table;

pub use drawing::draw;
pub use finding::Finding;
pub use gathering::findings;
pub use graph::{Edge, Graph, GraphNode, Node, NodeKind};
pub use laws::{law_of_findings, law_of_named_ports};
pub use ports::named_ports;
