//! What comes of a request that is carried out.

use crate::touch::Touch;
use omci_msg::Reply;

/// What comes of a request that is carried out.
#[derive(Clone, Copy)]
pub struct Carried {
    pub reply: Reply,
    /// What it changed among the instances.
    pub touch: Touch,
    /// Whether it is accepted: its action may change the entities, and its result is success. The entities are as they were where
    /// it isn't.
    pub accepted: bool,
}
