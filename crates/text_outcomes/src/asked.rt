//! What is checked.
use text_expectations::ExpectedLine;

/// Which expectations are checked, and how what is found is written.
#[derive(Clone, Copy)]
pub struct Asked<'e> {
    /// The expectations, each with the number of its line, in order.
    pub lines: &'e [ExpectedLine],
    /// The line of the trace, from 1, behind which they have to hold, and by each version from there on; 0 for the opening state, or None for the last
    /// version alone.
    pub from: Option<u64>,
    /// How many bytes a frame has at least.
    pub least: u16,
    /// Whether it is one object of JSON.
    pub is_json: bool,
}
