//! What is found of the messages of a trace.
use crate::why::Why;
use omci_msg::{Action, MsgFault};
use text_finding_kinds::Kind;

/// What a message says of itself: its action, its class and its instance, as far as it has bytes for them.
#[derive(Clone, Copy)]
pub struct Head {
    pub action: Option<Action>,
    pub class: Option<u16>,
    pub instance: Option<u16>,
}

/// What the model doesn't have.
#[derive(Clone, Copy, PartialEq, Eq)]
pub enum Missing {
    /// The class of this number.
    Class(u16),
    /// The action, which the standard names.
    Action(Action),
}

/// What is found of a message of a trace, or of a whole one.
#[derive(Clone, Copy)]
pub enum TraceFault {
    /// The trace has no message.
    Empty,
    /// The bytes of the message are no request.
    Faulty { head: Head, fault: MsgFault },
    /// The message is answered with this result, which isn't success.
    Refused { head: Head, code: u8, why: Why },
    /// This message is the first of so many for which the model has no class, or no action.
    NotModelled { missing: Missing, messages: u64 },
    /// The message creates a port of a bridge for a mapper whose TP type is 0, bridging; the bridge has a port for this PPTP
    /// Ethernet UNI.
    Bridged { mapper: u16, uni: Option<u16> },
    /// The message removes the entry of a key from a table that doesn't hold it.
    EntryNotHeld { table: u16, key: u64 },
    /// The message sets the entry of a key, for frames without tags, which copies from a received tag.
    CopyOfNoTag { table: u16, key: u64 },
    /// The message overwrites the entry of a key that the message of this line set.
    EntryOverwritten { table: u16, key: u64, set_by: u64 },
}

impl TraceFault {
    /// Its kind.
    pub(crate) fn kind(self) -> Kind {
        match self {
            TraceFault::Empty => Kind::EMPTY_TRACE,
            TraceFault::Faulty { .. } => Kind::MESSAGE_FAULT,
            TraceFault::Refused { .. } => Kind::MESSAGE_REFUSED,
            TraceFault::NotModelled { .. } => Kind::NOT_MODELLED,
            TraceFault::Bridged { .. } => Kind::BRIDGE_NOT_MODELLED,
            TraceFault::EntryNotHeld { .. } => Kind::ENTRY_NOT_HELD,
            TraceFault::EntryOverwritten { .. } => Kind::ENTRY_OVERWRITTEN,
            TraceFault::CopyOfNoTag { .. } => Kind::COPY_OF_NO_TAG,
        }
    }
}

/// What is found of a trace, and where.
#[derive(Clone, Copy)]
pub struct TraceFinding {
    /// The number of the message's line, from 1; None of a whole trace.
    pub line: Option<u64>,
    pub fault: TraceFault,
}

impl TraceFinding {
    /// Its kind.
    pub fn kind(&self) -> Kind {
        self.fault.kind()
    }
}
