//! The index of a table.
ghost use Rattle.std.specs.Prelude.{◌≡◌, ◌<◌, ◌≤◌, ◌+◌, [], ℕ, None, Some, IfOk, List, MatchOption, length, slice_get, slice_set, take};
ghost use Rattle.std.specs.List.{remove};
ghost use Rattle.rule_index.specs.Order.{order_of, IsAlike};
ghost use Rattle.rule_index.specs.Readers.{has_inner_vid, has_tags, mask_in_order, IsMaskInOrder};

use crate::entries::{copy_entries, first_other, is_without, of_one_key, other_treatment};
use crate::followed::Followed;
use crate::head::Head;
use crate::masks::Masks;
use crate::ranking::{close_gap, count_up_to, number_at, number_places, place_at, rank_entries};
use crate::row::Row;
use std::alloc::{AllocError, Global};
use std::marker::Model;
use tag_view::FrameView;
use vlan_rule::{Entry, RuleTable, TABLE_MAX_SIZE};

/// The index of a received frame VLAN tagging operation table (G.988, 9.3.13), by which the entry for a
/// frame is found without a look at each. It is seen as the list of the entries that it is of.
#[derive(Drop)]
pub struct Index {
    entries: Vec<Entry>,
    // In the order of rank and place.
    rows: Vec<Row>,
    // By place, the number of the entry there.
    numbers: [u8; 128],
    masks: Masks,
}

impl Model for Index {
    ghost use Rattle.std.specs.Prelude.{◌≤◌, List, ℕ, map, vec_capacity};
    ghost use Rattle.vlan_rule.specs.Table.{table_max_size};
    ghost use Rattle.rule_index.specs.Built.{IsIndexOf};

    ghost Value = { List (List ℕ) };

    ghost view = { λ index. map (λ entry. entry.0) index.entries.items };

    ghost invariant = { λ index.
        (table_max_size ≤ vec_capacity index.entries) × (table_max_size ≤ vec_capacity index.rows)
        × IsIndexOf (map (λ entry. entry.0) index.entries.items) index.rows.items index.masks };
}

impl Index {
    ghost use Rattle.tag_view.specs.Frame.{type_at};
    ghost use Rattle.vlan_rule.specs.Choice.{choice, entry_at, matches, IsChoice};
    ghost use Rattle.vlan_rule.specs.Table.{table_max_size};
    ghost use Rattle.rule_index.specs.Followed.{IsFirstOther, IsFollowed, IsOneMore, IsStep, IsTreated};

    /// An index of no entries, with room for those of any table.
    pub fn new(alloc: Global) -> Result<Self, AllocError>
        ensures { IfOk result (λ index. index ≡ []) }
    {
        let mut masks = Masks::new(alloc)?;
        masks.rebuild(&[]);
        Ok(Index {
            entries: Vec::with_capacity(alloc, TABLE_MAX_SIZE as usize)?,
            rows: Vec::with_capacity(alloc, TABLE_MAX_SIZE as usize)?,
            numbers: [0; 128],
            masks,
        })
    }

    /// Becomes the index of a table. Entries, order and masks are all made anew, whatever stood before. It
    /// takes no memory.
    pub fn rebuild(&mut self, table: &RuleTable)
        ensures { self.new ≡ table.now }
    {
        self.compile_from(table, 0);
    }

    /// Becomes the index of a table, and says what it found: that nothing changed, that one treatment may
    /// have, that one entry was added or deleted, or anything else. It takes no memory, and the entries are
    /// gone over once. Where one treatment was set, order and masks stay. Where one entry was added or deleted,
    /// each mask is moved by one bit.
    pub fn follow(&mut self, table: &RuleTable) -> Followed
        ensures index { self.new ≡ table.now }
        ensures followed { IsFollowed self.old self.new result }
    {
        let Some(place) = self.other_place(table) else {
            return Followed::Unchanged;
        };
        if let Some(followed) = self.only_step(table, place) {
            return followed;
        }
        self.compile_from(table, place);
        Followed::Rebuilt
    }

    /// Comes one step nearer to a table, and says which. The step is at the first place at which both differ: where
    /// the table's entry there has the same key, that one entry is taken; where the index ends there, the table's
    /// entry comes at its end; else the entry that the index has there is deleted. It takes no memory. A table is
    /// changed by treatments that are set in place, by deletions, and by keys that come at its end, so that a few
    /// steps reach a table that few changes have made. Only where an entry names a VID for which no class is
    /// left, all is made anew.
    pub fn approach(&mut self, table: &RuleTable) -> Followed
        ensures followed { IsFollowed self.old self.new result }
        ensures step { IsStep self.old self.new table.now result }
    {
        let Some(place) = self.other_place(table) else {
            return Followed::Unchanged;
        };
        if let Some(followed) = self.step(table, place) {
            return followed;
        }
        self.compile_from(table, place);
        Followed::Rebuilt
    }

    /// The first place at which a table has another entry, or from which on one of both has no more, or None where
    /// they are the same.
    fn other_place(&self, table: &RuleTable) -> Option<usize>
        ensures { MatchOption result (self.now ≡ table.now)
            (λ place. IsFirstOther self.now table.now place) }
    {
        let place = first_other(&self.entries, table, 0);
        if place == self.entries.len() && place == table.len() {
            return None;
        }
        Some(place)
    }

    /// Takes the step by which alone a table differs, at the first place at which both differ, or leaves all as it is
    /// where there is no such step or it can't be taken.
    fn only_step(&mut self, table: &RuleTable, place: usize) -> Option<Followed>
        requires { IsFirstOther self.old table.now place }
        ensures { MatchOption result (self.new ≡ self.old)
            (λ followed. (self.new ≡ table.now) × IsFollowed self.old self.new followed) }
    {
        if place == self.entries.len() && place + 1 == table.len() {
            return Some(Followed::Added(self.take_next(table)?));
        }
        if let Some(entry) = other_treatment(&self.entries, table, place) {
            return Some(Followed::Treatment(self.set_entry(place, entry)?));
        }
        if is_without(&self.entries, table, place) {
            return Some(Followed::Deleted(self.delete_at(place)?));
        }
        None
    }

    /// Takes the step towards a table at the first place at which both differ, or leaves all as it is where it can't
    /// be taken.
    fn step(&mut self, table: &RuleTable, place: usize) -> Option<Followed>
        requires { IsFirstOther self.old table.now place }
        ensures { MatchOption result (self.new ≡ self.old)
            (λ followed. IsFollowed self.old self.new followed
            × IsStep self.old self.new table.now followed) }
    {
        if place == self.entries.len() {
            return Some(Followed::Added(self.take_next(table)?));
        }
        if let Some(entry) = of_one_key(&self.entries, table, place) {
            return Some(Followed::Treatment(self.set_entry(place, entry)?));
        }
        Some(Followed::Deleted(self.delete_at(place)?))
    }

    /// Sets the entry at a place to one of the same key, and gives its number.
    fn set_entry(&mut self, place: usize, entry: Entry) -> Option<u8>
        requires within { place < length self.old }
        requires alike { IsAlike (entry_at self.old place) entry.0 }
        ensures { MatchOption result (self.new ≡ self.old)
            (λ number. (self.new ≡ slice_set self.old place entry.0)
            × (slice_get (order_of self.new) number ≡ Some place)
            × IsTreated self.old self.new number) }
    {
        let number = number_at(&self.numbers, &self.rows, place)?;
        self.entries[place] = entry;
        Some(number)
    }

    /// Takes the entry that a table has next behind all of the index, where there is one and a class for its VIDs,
    /// and gives its number.
    fn take_next(&mut self, table: &RuleTable) -> Option<u8>
        requires { (k : ℕ) → k < length self.old → entry_at self.old k ≡ entry_at table.now k }
        ensures { MatchOption result (self.new ≡ self.old)
            (λ number. (length self.old < length table.now)
            × (length self.old < table_max_size)
            × (self.new ≡ take (length self.old + 1) table.now)
            × IsOneMore self.old self.new (length self.old) number) }
    {
        let place = self.entries.len();
        if table.len() <= place || !self.masks.has_room() {
            return None;
        }
        let entry = table.entry(place)?;
        let rule = table.rule(place)?;
        let row = Row {
            place,
            filter: rule.filter,
            ethertype: rule.ethertype,
        };
        let number = count_up_to(table, rule.rank.number(), place);
        self.entries.push_reserved(entry);
        let _ = self.rows.insert(number, row);
        number_places(&mut self.numbers, &self.rows, number);
        self.masks.insert(&row, number);
        Some(number as u8)
    }

    /// Lets the entry at a place go, and gives the number that it had.
    fn delete_at(&mut self, place: usize) -> Option<u8>
        requires { place < length self.old }
        ensures { MatchOption result (self.new ≡ self.old)
            (λ number. (self.new ≡ remove self.old place)
            × IsOneMore self.new self.old place number) }
    {
        let number = number_at(&self.numbers, &self.rows, place)?;
        self.entries.remove(place);
        self.rows.remove(usize::from(number));
        close_gap(&mut self.rows, place);
        number_places(&mut self.numbers, &self.rows, 0);
        self.masks.remove(usize::from(number));
        Some(number)
    }

    /// Takes the entries of a table from a place on, before which they are the same, and makes order and masks
    /// of all of them.
    fn compile_from(&mut self, table: &RuleTable, from: usize)
        requires within { (from ≤ length self.old) × (from ≤ length table.now) }
        requires same { (k : ℕ) → k < from → entry_at self.old k ≡ entry_at table.now k }
        ensures { self.new ≡ table.now }
    {
        copy_entries(&mut self.entries, table, from);
        rank_entries(&mut self.rows, table);
        number_places(&mut self.numbers, &self.rows, 0);
        self.masks.rebuild(&self.rows);
    }

    /// The place of the entry that is used for a frame, or None where none matches it: of those that match,
    /// the first of least rank. It takes no memory, and the same time whatever the entries are.
    pub fn find(&self, frame: &FrameView<'_>, input_tpid: u16) -> Option<usize>
        ensures used { IsChoice (matches input_tpid frame.now.tags (type_at 0 frame.now.rest))
            self.now result }
        ensures computed { result
            ≡ choice (matches input_tpid frame.now.tags (type_at 0 frame.now.rest)) self.now }
    {
        place_at(&self.rows, self.number(&Head::of(frame), input_tpid))
    }

    /// The number, in the order of rank and place, of the entry that is used for a frame with this head, or
    /// 128 where none matches it. What belongs to an entry can be kept by this number: its place is
    /// `order` of it.
    #[inline(always)]
    pub fn number(&self, head: &Head, input_tpid: u16) -> usize
        ensures used { slice_get (order_of self.now) result
            ≡ choice (matches input_tpid head.now.tags head.now.type) self.now }
        ensures none { choice (matches input_tpid head.now.tags head.now.type) self.now ≡ None
            → result ≡ 128 }
        ensures limit { result ≤ 128 }
    {
        self.masks.mask(head, input_tpid).trailing_zeros() as usize
    }

    /// The place of entry number `j` in the order of rank and place, counted from 0, or None where there is
    /// no such entry.
    pub fn order(&self, j: u8) -> Option<usize>
        ensures { result ≡ slice_get (order_of self.now) j }
    {
        place_at(&self.rows, usize::from(j))
    }

    /// Which entries are of a kind with this number of tags: bit j is set exactly where there is an entry
    /// number j in the order of rank and place, and it is.
    pub fn tag_mask(&self, tags: u8) -> u128
        ensures bits { IsMaskInOrder (has_tags tags) self.now result }
        ensures value { result ≡ mask_in_order (has_tags tags) self.now }
    {
        if tags > 2 {
            return 0;
        }
        self.masks.tag_mask(usize::from(tags))
    }

    /// Which entries admit this inner VID, as those do whose kind doesn't count it: bit j is set exactly
    /// where there is an entry number j in the order of rank and place, and it does.
    pub fn inner_vid_mask(&self, vid: u16) -> u128
        requires { vid < 4096 }
        ensures bits { IsMaskInOrder (has_inner_vid vid) self.now result }
        ensures value { result ≡ mask_in_order (has_inner_vid vid) self.now }
    {
        self.masks.inner_vid_mask(vid)
    }
}
