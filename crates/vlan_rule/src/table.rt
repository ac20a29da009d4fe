//! The table of entries, each with its rule.
ghost use Rattle.std.specs.Prelude.{◌≡◌, ◌≤◌, ◌<◌, ◌==◌, Err, IfOk, MatchOption, MatchResult, length, slice_get, slice_index_or, slice_set, [], ◌∷◌, ◌++◌};
ghost use Rattle.std.specs.Option.{option_map};
ghost use Rattle.std.specs.List.{position, remove};
ghost use Rattle.vlan_rule.specs.Edit.{IsEditFor};
ghost use Rattle.vlan_rule.specs.Entry.{key_of};
ghost use Rattle.vlan_rule.specs.Meaning.{rank_number, rank_of};
ghost use Rattle.vlan_rule.specs.Rule.{IsRuleOf};
ghost use Rattle.vlan_rule.specs.Table.{left_by, predefined, put, table_max_size, told_by};

use crate::edit::Edit;
use crate::entry::Entry;
use crate::fault::TableFault;
use crate::put::Put;
use crate::rule::Rule;
use std::alloc::{AllocError, Global};
use std::marker::Model;

/// The most entries that a received frame VLAN tagging operation table holds, the predefined ones
/// among them (G.988, 9.3.13); a choice of this project.
pub const TABLE_MAX_SIZE: u16 = 128;

/// The entries of a new table.
const PREDEFINED: [Entry; 3] = [
    Entry([0xf0, 0, 0, 0, 0xf0, 0, 0, 0, 0, 0x0f, 0, 0, 0, 0x0f, 0, 0]),
    Entry([0xf0, 0, 0, 0, 0xe0, 0, 0, 0, 0, 0x0f, 0, 0, 0, 0x0f, 0, 0]),
    Entry([0xe0, 0, 0, 0, 0xe0, 0, 0, 0, 0, 0x0f, 0, 0, 0, 0x0f, 0, 0]),
];

/// An entry that is held, with its rule.
#[derive(Clone, Copy)]
pub(crate) struct Row {
    pub(crate) entry: Entry,
    pub(crate) rule: Rule,
    pub ghost read: { IsRuleOf entry.0 rule },
}

impl Row {
    /// The number of the entry's rank.
    pub(crate) fn rank(&self) -> u8
        ensures { result ≡ rank_number (rank_of self.now.entry.0) }
    {
        self.rule.rank.number()
    }
}

/// The received frame VLAN tagging operation table (G.988, 9.3.13): its entries in order, with room
/// for `TABLE_MAX_SIZE` of them.
#[derive(Drop)]
pub struct RuleTable {
    pub(crate) rows: Vec<Row>,
}

impl Model for RuleTable {
    ghost use Rattle.std.specs.Prelude.{List, ℕ, map, vec_capacity, vec_len, ◌≤◌};
    ghost use Rattle.vlan_rule.specs.Table.{table_max_size};

    ghost Value = { List (List ℕ) };

    ghost view = { λ table. map (λ row. row.entry.0) table.rows.items };

    ghost invariant = { λ table.
        (table_max_size ≤ vec_capacity table.rows)
        × (vec_len table.rows ≤ table_max_size) };
}

impl RuleTable {
    /// A table that holds the three predefined entries: of frames without tags, with one and with two,
    /// which leave unchanged. Their bytes and their order are a choice of this project.
    pub fn new(alloc: Global) -> Result<Self, AllocError>
        ensures { IfOk result (λ table. table ≡ predefined) }
    {
        let mut table = RuleTable {
            rows: Vec::with_capacity(alloc, TABLE_MAX_SIZE as usize)?,
        };
        table.reset();
        Ok(table)
    }

    /// Goes back to the three predefined entries.
    pub fn reset(&mut self)
        ensures { self.new ≡ predefined }
    {
        self.clear();
        let [untagged, one_tag, two_tags] = PREDEFINED;
        let _ = self.put(untagged);
        let _ = self.put(one_tag);
        let _ = self.put(two_tags);
    }

    /// Puts an entry: deletes the entry of its key, overwrites it in its place, or adds the entry at
    /// the end. A deletion isn't checked, whatever its key. After a refusal the table is unchanged.
    pub fn put(&mut self, entry: Entry) -> Result<Put, TableFault>
        ensures told { result ≡ told_by (put self.old entry.0) }
        ensures after { self.new ≡ left_by self.old (put self.old entry.0) }
    {
        let edit = self.edit(&entry)?;
        match edit {
            Edit::Add(rule) => self.add(Row { entry, rule }),
            Edit::Replace(at, rule) => self.replace(at, Row { entry, rule }),
            Edit::Delete(at) => self.remove(at),
            Edit::Absent => {}
        }
        Ok(edit.told())
    }

    /// What a put of the entry would answer.
    pub fn check(&self, entry: &Entry) -> Result<Put, TableFault>
        ensures { result ≡ told_by (put self.now entry.now.0) }
    {
        let edit = self.edit(entry)?;
        Ok(edit.told())
    }

    /// How many entries it holds, `TABLE_MAX_SIZE` at most.
    pub fn len(&self) -> usize
        ensures value { result ≡ length self.now }
        ensures limit { result ≤ table_max_size }
    {
        self.rows.len()
    }

    /// The entry at a place, counted from 0.
    pub fn entry(&self, place: usize) -> Option<Entry>
        ensures { option_map (λ (e : _). e.0) result ≡ slice_get self.now place }
    {
        let row = self.rows.get(place)?;
        Some(row.entry)
    }

    /// The rule of the entry at a place.
    pub fn rule(&self, place: usize) -> Option<&Rule>
        ensures { MatchOption result
            (length self.now ≤ place)
            (λ rule. (place < length self.now)
            × IsRuleOf (slice_index_or self.now place []) rule.now) }
    {
        let row = self.rows.get(place)?;
        Some(&row.rule)
    }

    fn clear(&mut self)
        ensures { self.new ≡ [] }
    {
        self.rows.clear();
    }

    fn add(&mut self, row: Row)
        requires { length self.old < table_max_size }
        ensures { self.new ≡ self.old ++ row.entry.0 ∷ [] }
    {
        let _ = self.rows.push(row);
    }

    fn replace(&mut self, at: usize, row: Row)
        requires { at < length self.old }
        ensures { self.new ≡ slice_set self.old at row.entry.0 }
    {
        self.rows[at] = row;
    }

    fn remove(&mut self, at: usize)
        requires { at < length self.old }
        ensures { self.new ≡ remove self.old at }
    {
        self.rows.remove(at);
    }

    /// Where an entry of the same key is held.
    fn place(&self, entry: &Entry) -> Option<usize>
        ensures { result ≡ position (λ e. key_of e == key_of entry.now.0) self.now }
    {
        first_with_key(&self.rows, entry.key())
    }

    /// What is to be done with an entry.
    fn edit(&self, entry: &Entry) -> Result<Edit, TableFault>
        ensures { MatchResult result
            (IsEditFor self.now entry.now.0)
            (λ fault. put self.now entry.now.0 ≡ Err fault) }
    {
        let place = self.place(entry);
        if entry.is_deletion() {
            return Ok(match place {
                Some(at) => Edit::Delete(at),
                None => Edit::Absent,
            });
        }
        match Rule::read(entry) {
            Err(fault) => Err(TableFault::Bad(fault)),
            Ok(rule) => match place {
                Some(at) => Ok(Edit::Replace(at, rule)),
                None if self.len() < TABLE_MAX_SIZE as usize => Ok(Edit::Add(rule)),
                None => Err(TableFault::Full),
            },
        }
    }
}

fn first_with_key(rows: &[Row], key: u64) -> Option<usize>
    ensures { result ≡ position (λ row. key_of row.entry.0 == key) rows.now }
{
    rows.iter().position(|row| row.entry.key() == key)
}
