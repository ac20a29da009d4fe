//! The commands that look at a unit after a trace: `mib`, `rules`, `explain`, `lint` and `graph`.
//!
//! What they show is found by the crates `mib_state`, `explain` and `explain_findings`, and written by those whose names begin with
//! `text_`. Each gives its `Status`.
#![tactic(auto)]

mod linting;
mod looking;

pub use linting::{draw_graph, lint};
pub use looking::{explain_frame, show_mib, show_rules};
