//! Which line of a trace set the entries that tables hold.
use managed_entity::Class;
use omci_msg::{Action, Request};
use std::alloc::{AllocError, Global};

/// An entry that a line set: the number of its table, and its key.
#[derive(Clone, Copy)]
struct SetEntry {
    line: u64,
    table: u16,
    key: u64,
}

/// The entries that a trace set and that are still held, each once.
#[derive(Drop)]
pub(crate) struct SetEntries {
    entries: Vec<SetEntry>,
}

impl SetEntries {
    /// None.
    pub(crate) fn new(alloc: Global) -> Self {
        SetEntries {
            entries: Vec::new(alloc),
        }
    }

    /// Puts an entry that a line sets, and gives the line that set it before, if one did.
    pub(crate) fn put(
        &mut self,
        line: u64,
        table: u16,
        key: u64,
    ) -> Result<Option<u64>, AllocError> {
        for entry in &mut self.entries {
            if entry.table == table && entry.key == key {
                let before = entry.line;
                entry.line = line;
                return Ok(Some(before));
            }
        }
        self.entries.push(SetEntry { line, table, key })?;
        Ok(None)
    }

    /// Removes the entry of a key, which is deleted.
    pub(crate) fn remove(&mut self, table: u16, key: u64) {
        self.entries
            .retain(|entry| entry.table != table || entry.key != key);
    }

    /// Removes what a request that was carried out deletes, or creates anew.
    pub(crate) fn follow(&mut self, request: &Request) {
        match request.action {
            Action::MibReset => self.entries.clear(),
            Action::Create | Action::Delete if request.class == Class::Vlan.number() => {
                self.entries.retain(|entry| entry.table != request.instance);
            }
            _ => {}
        }
    }
}
