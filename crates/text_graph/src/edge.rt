//! The priorities of an edge.
use std::fmt;

/// Priorities, joined by commas.
#[derive(Clone, Copy)]
pub(crate) struct Priorities<'p>(pub(crate) &'p [u8]);

impl fmt::Display for Priorities<'_> {
    fn fmt<W: fmt::Write>(&self, f: &mut fmt::Formatter<W>) -> fmt::Result {
        let mut separator = "";
        for priority in self.0 {
            let priority = *priority;
            write!(f, "{separator}{priority}")?;
            separator = ",";
        }
        Ok(())
    }
}
