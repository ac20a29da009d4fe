//! What a deviation is looked for in.
use crate::lines::HistoryLines;
use omci_msg::Request;
use std::alloc::{AllocError, Global};

/// The history in which deviations were found, and what was carried out before it.
#[derive(Clone, Copy)]
pub struct Observed<'t> {
    /// The text of the history in parts, each of whole lines.
    pub parts: &'t [&'t [u8]],
    /// The requests that were carried out before the first line.
    pub start: &'t [Request],
    /// Whether a message that repeats the one before it isn't carried out.
    pub repeats: bool,
    /// Whether replies are compared only in what the model determines.
    pub modelled: bool,
}

/// The same, by its lines.
#[derive(Drop)]
pub struct Lines<'t> {
    pub(crate) start: &'t [Request],
    pub(crate) repeats: bool,
    pub(crate) modelled: bool,
    pub(crate) lines: HistoryLines<'t>,
}

impl<'t> Lines<'t> {
    /// The lines of a history, found once for all of its deviations.
    pub fn of(alloc: Global, observed: &Observed<'t>) -> Result<Self, AllocError> {
        Ok(Lines {
            start: observed.start,
            repeats: observed.repeats,
            modelled: observed.modelled,
            lines: HistoryLines::of(alloc, observed.parts)?,
        })
    }
}
