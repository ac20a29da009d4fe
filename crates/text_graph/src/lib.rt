//! The managed entities as a graph in Graphviz's language.
//!
//! What the graph has, which nodes are in force and where each edge leads, is the crate `explain_findings`'s, whose contract is
//! exact; this crate writes it. It promises that every call returns; what stands in the text is shown by tests.
#![tactic(auto)]

mod edge;
mod label;
mod name;
mod writing;

pub use writing::write_graph;
