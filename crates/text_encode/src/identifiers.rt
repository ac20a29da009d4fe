//! Transaction correlation identifiers (ITU-T G.988, clause 11.2).

/// The identifiers of a script's messages, one after the other. Behind 65535 comes 1, since 0 is that of notifications.
#[derive(Clone, Copy)]
pub(crate) struct Identifiers {
    next: u16,
}

impl Identifiers {
    /// Those that begin with this one.
    pub(crate) fn from(first: u16) -> Self {
        Identifiers { next: first }
    }

    /// The identifier of the next message: the one that it sets itself, from which the others then go on, or the next of the count.
    pub(crate) fn take(&mut self, set: Option<u16>) -> u16 {
        let identifier = set.unwrap_or(self.next);
        self.next = identifier.checked_add(1).unwrap_or(1);
        identifier
    }

    /// The identifier that the next message has if it sets none.
    pub(crate) fn next(&self) -> u16 {
        self.next
    }
}
