//! Requests that wait for their replies.

use omci_msg::Reply;

/// A request that waits for its reply.
#[derive(Clone, Copy)]
pub struct Awaited {
    /// The place of the event that sent it.
    pub sent: usize,
    /// What the model replies.
    pub reply: Reply,
}

/// A request that waits behind others.
#[derive(Clone, Copy)]
pub struct Later {
    /// The place of the event that sent it.
    pub sent: usize,
    /// How many requests wait before it.
    pub skipped: usize,
}
