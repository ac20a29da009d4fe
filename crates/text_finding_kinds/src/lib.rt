//! The kinds of findings: their words, their severities and what each says.
//!
//! It promises that every call returns; what stands in a text is shown by tests.
#![tactic(auto)]

mod kind;
mod severity;

pub use kind::{Kind, put_kinds};
pub use severity::Severity;
