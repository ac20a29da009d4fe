//! An understudy: temporary entries that stand in for one that has to move.
//!
//! **When it works.** Where an entry has to move behind others, and other keys together admit the same frames: by all fields, as a default entry where
//! every tag is admitted, or one for each priority.
//! **Why it is hitless.** A key that is set again goes to the end of the table (ITU-T G.988, 9.3.13). The temporary entries go last first, treat
//! their frames as the entry does, and so nothing changes while it is deleted and set again.
//! **What it takes of a unit.** Room in the table, and that entries of one number of tags are tried in the order in which they were set.
use crate::entries::{count_kept, deletion_of, entries_of, set_entry, with_key};
use crate::keys::{WAYS, others_of};
use managed_entity::Class;
use migration_draft::{Draft, Temporary, numbers_of};
use std::alloc::AllocError;
use vlan_rule::Entry;

/// The entry of another key with the treatment of an entry.
fn with_other_key(entry: &Entry, key: u64) -> Entry {
    let mut bytes = entry.0;
    for (place, byte) in bytes.iter_mut().zip(&key.to_be_bytes()) {
        *place = *byte;
    }
    Entry(bytes)
}

/// Sets the temporary entries for one of a table, by one of the ways to say its key, and then deletes it.
fn stand_in(
    draft: &mut Draft<'_>,
    table: u16,
    moved: &Entry,
    treated: &Entry,
    way: usize,
) -> Result<bool, AllocError> {
    let Some(keys) = others_of(moved.key(), way) else {
        return Ok(false);
    };
    let (count, temporaries) = (draft.plan.len(), draft.temporaries.len());
    for key in &keys {
        let entry = with_other_key(treated, *key);
        let is_held = match draft.here.vlan(table) {
            Some(vlan) => with_key(&entries_of(draft.alloc, &vlan.table)?, *key).is_some(),
            None => true,
        };
        if is_held || !draft.take(&set_entry(table, &entry))? {
            draft.cut(count, temporaries)?;
            return Ok(false);
        }
        draft.temporaries.push(Temporary::Entry(table, *key))?;
    }
    let gone = set_entry(table, &deletion_of(moved.key()));
    if !draft.take(&gone)? {
        draft.cut(count, temporaries)?;
        return Ok(false);
    }
    Ok(true)
}

/// The entries of a table that have to move: held, wanted, and not kept where they are.
fn moved_of(draft: &Draft<'_>, table: u16) -> Result<Vec<(Entry, Entry)>, AllocError> {
    let mut moved = Vec::new(draft.alloc);
    let (Some(held), Some(wanted)) = (draft.here.vlan(table), draft.sides.goal.vlan(table)) else {
        return Ok(moved);
    };
    let held = entries_of(draft.alloc, &held.table)?;
    let wanted = entries_of(draft.alloc, &wanted.table)?;
    let kept = count_kept(&held, &wanted);
    let (_, coming) = wanted.split_at(kept.min(wanted.len()));
    for entry in coming {
        if let Some(held) = with_key(&held, entry.key()) {
            moved.push((held, *entry))?;
        }
    }
    Ok(moved)
}

/// Finds an understudy for an entry of a table that has to move, and deletes the entry.
pub fn find_understudy(draft: &mut Draft<'_>) -> Result<bool, AllocError> {
    let tables = numbers_of(draft.alloc, draft.sides.goal, Class::Vlan)?;
    for table in &tables {
        for (held, wanted) in &moved_of(draft, *table)? {
            for way in 0..WAYS {
                if stand_in(draft, *table, held, held, way)?
                    || stand_in(draft, *table, held, wanted, way)?
                {
                    return Ok(true);
                }
            }
        }
    }
    Ok(false)
}
