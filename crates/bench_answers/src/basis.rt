//! What a history's messages and replies are judged upon.

use omci_msg::Request;

/// What a history's messages and replies are judged upon.
#[derive(Clone, Copy)]
pub struct Basis<'s> {
    /// Of the contents of replies only what a model determines is compared.
    pub modelled: bool,
    /// A message with the bytes of the message before it is a repeat: it isn't carried out, and may be answered or not.
    pub repeats: bool,
    /// The requests that the unit carried out before the first event.
    pub start: &'s [Request],
}
