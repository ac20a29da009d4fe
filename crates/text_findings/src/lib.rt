//! The findings about a configuration, and about the messages of a trace, as text and as JSON.
//!
//! What is found and what each finding claims is the crate `explain_findings`'s, and of messages `text_trace_findings`'s; this crate
//! writes it. By the priorities that frames have it leaves findings out, and adds GEM ports that no frame comes by. It promises
//! that every call returns; what stands in a text is shown by tests.
#![tactic(auto)]

mod entity_finding;
mod idle;
mod lines;
mod objects;
mod priorities;
mod subject;
mod words;

pub use entity_finding::{EntityFinding, with_kinds};
pub use lines::write_findings;
pub use objects::write_findings_json;
pub use text_finding_kinds::{Kind, Severity, put_kinds};
pub use text_trace_findings::{TraceFinding, trace_findings};
