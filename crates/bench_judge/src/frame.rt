//! What is kept of a frame that was sent, and of all of them.

use crate::known::Known;
use bench_history::Event;
use omci_msg::Request;

/// What is kept of a frame that was sent. The frames of a history stand by their numbers.
#[derive(Clone, Copy)]
pub(crate) struct Frame {
    /// The place of the event that sent it.
    pub(crate) sent: usize,
    /// The place of the event that ended it, unless it is open or isn't judged.
    pub(crate) ended: Option<usize>,
    pub(crate) port: u16,
    /// Whether enough of it is known to judge it. Of another one no end is kept.
    pub(crate) is_enough: bool,
    /// The least version that it may have.
    pub(crate) least: usize,
    /// The greatest, if it has ended.
    pub(crate) most: usize,
}

/// Frames, and what decides which versions they may have together.
#[derive(Drop)]
pub(crate) struct Case<'e, 'a> {
    pub(crate) events: &'e [Event<'a>],
    pub(crate) requests: &'e [Request],
    pub(crate) frames: &'e [Frame],
    /// Versions that the frames are known to have, so that they needn't be looked at again.
    pub(crate) known: &'e Known,
    pub(crate) padded: bool,
    pub(crate) unordered: bool,
}
