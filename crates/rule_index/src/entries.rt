//! The entries that an index is of.
ghost use Rattle.std.specs.Prelude.{◌≡◌, ◌≢◌, ◌≤◌, ◌<◌, ◌+◌, ◌↔◌, ℕ, IfSome, IsTrue, Some, length, map, slice_get, slice_set, vec_capacity};
ghost use Rattle.vlan_rule.specs.Choice.{entry_at};
ghost use Rattle.vlan_rule.specs.Table.{table_max_size};
ghost use Rattle.std.specs.List.{remove};
ghost use Rattle.rule_index.specs.Order.{IsAlike};

use byteorder::{BigEndian, ByteOrder};
use vlan_rule::{Entry, RuleTable};

/// Copies the entries of a table from a place on, before which they are the same.
pub(crate) fn copy_entries(entries: &mut Vec<Entry>, table: &RuleTable, from: usize)
    requires room { table_max_size ≤ vec_capacity entries.old }
    requires within { (from ≤ length entries.old.items) × (from ≤ length table.now) }
    requires same { (k : ℕ) → k < from → entry_at (map (λ entry. entry.0) entries.old.items) k
        ≡ entry_at table.now k }
    ensures entries { map (λ entry. entry.0) entries.new.items ≡ table.now }
    ensures room { vec_capacity entries.new ≡ vec_capacity entries.old }
    ensures limit { length table.now ≤ table_max_size }
{
    entries.truncate(from);
    for place in from..table.len() {
        if let Some(entry) = table.entry(place) {
            entries.push_reserved(entry);
        }
    }
}

/// The first place, from one on, at which a table has another entry than these, or the length of the shorter
/// of both.
pub(crate) fn first_other(entries: &[Entry], table: &RuleTable, from: usize) -> usize
    ensures same { (k : ℕ) → from ≤ k → k < result
        → entry_at (map (λ entry. entry.0) entries.now) k ≡ entry_at table.now k }
    ensures within { (result ≤ length entries.now) × (result ≤ length table.now) }
    ensures differ { result < length entries.now → result < length table.now
        → entry_at (map (λ entry. entry.0) entries.now) result ≢ entry_at table.now result }
{
    let len = entries.len().min(table.len());
    for place in from..len {
        if let Some(entry) = table.entry(place)
            && !are_equal(&entries[place].0, &entry.0)
        {
            return place;
        }
    }
    len
}

/// The entry at a place of a table, where it has the key of that which is there among these.
pub(crate) fn of_one_key(entries: &[Entry], table: &RuleTable, place: usize) -> Option<Entry>
    ensures { IfSome result (λ entry. (place < length entries.now)
        × IsAlike (entry_at (map (λ e. e.0) entries.now) place) entry.0
        × (slice_get table.now place ≡ Some entry.0)) }
{
    if entries.len() <= place {
        return None;
    }
    let entry = table.entry(place)?;
    if have_one_key(&entries[place].0, &entry.0) {
        Some(entry)
    } else {
        None
    }
}

/// The entry at a place of a table, where it differs from these in this entry's treatment alone.
pub(crate) fn other_treatment(entries: &[Entry], table: &RuleTable, place: usize) -> Option<Entry>
    requires { (k : ℕ) → k < place → entry_at (map (λ entry. entry.0) entries.now) k
        ≡ entry_at table.now k }
    ensures { IfSome result (λ entry. (place < length entries.now)
        × IsAlike (entry_at (map (λ e. e.0) entries.now) place) entry.0
        × (table.now ≡ slice_set (map (λ e. e.0) entries.now) place entry.0)) }
{
    if entries.len() != table.len() {
        return None;
    }
    let entry = of_one_key(entries, table, place)?;
    if first_other(entries, table, place + 1) < entries.len() {
        return None;
    }
    Some(entry)
}

/// Whether a table has all of these entries but that at a place, before which they are the same.
pub(crate) fn is_without(entries: &[Entry], table: &RuleTable, place: usize) -> bool
    requires within { place ≤ length table.now }
    requires same { (k : ℕ) → k < place
        → entry_at (map (λ entry. entry.0) entries.now) k ≡ entry_at table.now k }
    ensures { IsTrue result → (place < length entries.now)
        × (table.now ≡ remove (map (λ entry. entry.0) entries.now) place) }
{
    if entries.len() != table.len() + 1 {
        return false;
    }
    first_other(&entries[1..], table, place) == table.len()
}

/// Whether the bytes of two entries begin with one key.
fn have_one_key(one: &[u8], other: &[u8]) -> bool
    requires one { length one.now ≡ 16 }
    requires other { length other.now ≡ 16 }
    ensures { IsTrue result → IsAlike one.now other.now }
{
    BigEndian::read_u64(one) == BigEndian::read_u64(other)
}

/// Whether two entries have the same bytes.
fn are_equal(one: &[u8], other: &[u8]) -> bool
    requires one { length one.now ≡ 16 }
    requires other { length other.now ≡ 16 }
    ensures { IsTrue result ↔ (one.now ≡ other.now) }
{
    BigEndian::read_u128(one) == BigEndian::read_u128(other)
}
