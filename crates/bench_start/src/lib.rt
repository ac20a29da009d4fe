//! The requests of a script that a unit carried out before a history of it begins.
//!
//! What a script asks is defined by script_lines and script_trace. [`read_start`] reads all of its requests, also those that are refused or
//! that change nothing: a unit answers them too.
#![tactic(auto)]

mod reading;

pub use reading::read_start;
