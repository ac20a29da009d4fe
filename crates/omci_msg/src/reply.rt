//! What a message is answered.

use crate::action::Action;

/// What a request is answered: its identifier, action, class and instance, and the contents.
#[derive(Clone, Copy, Debug, PartialEq, Eq)]
pub struct Reply {
    /// The transaction correlation identifier of the request.
    pub tci: u16,
    pub action: Action,
    /// The number of the managed entity's class.
    pub class: u16,
    /// The number of the instance within its class.
    pub instance: u16,
    pub contents: [u8; 32],
}
