//! The entries in which a table differs from what it is to be.
use arrayvec::ArrayVec;
use managed_entity::Class;
use migration_draft::{Temporary, put, set};
use omci_msg::Request;
use std::alloc::{AllocError, Global};
use vlan_rule::{Entry, RuleTable};

/// The mask of the table.
const TABLE: u16 = 0x0400;

/// The entries of a table, in order.
pub(crate) fn entries_of(alloc: Global, table: &RuleTable) -> Result<Vec<Entry>, AllocError> {
    let mut entries = Vec::with_capacity(alloc, table.len())?;
    for place in 0..table.len() {
        if let Some(entry) = table.entry(place) {
            entries.push(entry)?;
        }
    }
    Ok(entries)
}

/// How many of the entries that are wanted, from the first on, have keys that are held in this order already. They stay where they are.
pub(crate) fn count_kept(held: &[Entry], wanted: &[Entry]) -> usize {
    let mut count = 0usize;
    for entry in held {
        if wanted
            .get(count)
            .is_some_and(|next| next.key() == entry.key())
        {
            count = count.saturating_add(1);
        }
    }
    count
}

/// The entry of a key, if one is held.
pub(crate) fn with_key(entries: &[Entry], key: u64) -> Option<Entry> {
    entries.iter().find(|entry| entry.key() == key).copied()
}

/// A Set of an entry.
pub fn set_entry(table: u16, entry: &Entry) -> Request {
    set(Class::Vlan, table, TABLE, &entry.0)
}

/// The entry that deletes the one of a key.
pub(crate) fn deletion_of(key: u64) -> Entry {
    let mut bytes: ArrayVec<u8, 16> = ArrayVec::new();
    put(&mut bytes, &key.to_be_bytes());
    let mut entry = [0xff; 16];
    for (place, byte) in entry.iter_mut().zip(&bytes) {
        *place = *byte;
    }
    Entry(entry)
}

/// What is to be done with the entries of a table: those that are to be overwritten in their place, the one that is next at the end, and those
/// that are to go, in the order in which they are tried.
pub fn changed_entries(
    alloc: Global,
    number: u16,
    held: &RuleTable,
    wanted: &RuleTable,
    temporaries: &[Temporary],
) -> Result<Vec<Entry>, AllocError> {
    let held = entries_of(alloc, held)?;
    let wanted = entries_of(alloc, wanted)?;
    let kept = count_kept(&held, &wanted);
    let (staying, coming) = wanted.split_at(kept.min(wanted.len()));
    let mut list = Vec::new(alloc);
    for entry in staying {
        if with_key(&held, entry.key()) != Some(*entry) {
            list.push(*entry)?;
        }
    }
    if let Some(next) = coming.first()
        && with_key(&held, next.key()).is_none()
    {
        list.push(*next)?;
    }
    for entry in &held {
        let key = entry.key();
        let stays = with_key(staying, key).is_some();
        if !stays && !temporaries.iter().any(|each| each.is_entry(number, key)) {
            list.push(deletion_of(key))?;
        }
    }
    Ok(list)
}
