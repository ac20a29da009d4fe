//! What the table of a port uses for a frame.
ghost use Rattle.std.specs.Prelude.{◌≡◌, ◌==◌, None};
ghost use Rattle.std.specs.List.{position};
ghost use Rattle.frame_meaning.specs.Meaning.{read_at};
ghost use Rattle.frame_rows.specs.Use.{use_by};
ghost use Rattle.bench_coverage.specs.Numbers.{AreNumbered};

use arrayvec::ArrayVec;
use explain::tried_order;
use frame_meaning::PortTable;
use frame_rows::Use;
use mib_state::Mib;
use rule_index::Index;
use std::alloc::{AllocError, Global};
use tag_view::{CUSTOMER_TPID, view};
use vlan_rule::RuleTable;

/// What a table uses for a frame is found by this, without a look at each entry.
#[derive(Drop)]
pub(crate) struct EntryUses {
    index: Index,
    input_tpid: u16,
    // The number of each entry, by their places.
    numbers: ArrayVec<u8, 128>,
    ghost numbered: { AreNumbered index numbers.items },
}

/// The number of the entry at a place, where they are tried in this order.
fn number_at(order: &[usize], place: usize) -> Option<usize>
    ensures { result ≡ position (λ tried. tried == place) order.now }
{
    order.iter().position(|tried| *tried == place)
}

/// The number of each entry of a table, by their places.
fn numbers_of(table: &RuleTable) -> ArrayVec<u8, 128>
    ensures { AreNumbered table.now result.items }
{
    let order = tried_order(table);
    let mut numbers = ArrayVec::new();
    for place in 0..table.len() {
        if let Some(number) = number_at(&order, place) {
            numbers.push(number as u8);
        }
    }
    numbers
}

impl EntryUses {
    ghost use Rattle.std.specs.Prelude.{IfOk, Option, Some};
    ghost use Rattle.frame_meaning.specs.Meaning.{Table, table_at};
    ghost use Rattle.bench_coverage.specs.Uses.{AreUsesAt, IsUsesOf};

    /// Those of the table in force at a port, if one is.
    pub(crate) fn at(alloc: Global, mib: &Mib, port: u16) -> Result<Option<EntryUses>, AllocError>
        ensures { IfOk result (AreUsesAt (table_at mib.now.entities port)) }
    {
        match PortTable::at(mib, port) {
            Some(table) => Ok(Some(Self::of(alloc, table)?)),
            None => Ok(None),
        }
    }

    /// Those of a table.
    fn of(alloc: Global, table: PortTable<'_>) -> Result<EntryUses, AllocError>
        ensures { IfOk result (IsUsesOf table.entry) }
    {
        let mut index = Index::new(alloc)?;
        index.rebuild(table.rules);
        Ok(EntryUses {
            index,
            input_tpid: table.settings.input_tpid,
            numbers: numbers_of(table.rules),
        })
    }

    /// What the table uses for a frame.
    fn use_for(&self, bytes: &[u8]) -> Use
        ensures { (table : Table) → IsUsesOf table self.now
            → result ≡ use_by (Some table) (read_at (Some table) bytes.now) }
    {
        let Ok(frame) = view(bytes, self.input_tpid) else {
            return Use::Unread;
        };
        match self.index.find(&frame, self.input_tpid) {
            Some(place) => Use::Entry(self.numbers[place]),
            None => Use::NoEntry,
        }
    }

    /// What a port uses for a frame, of whose table this is kept.
    pub(crate) fn use_at(uses: &Option<EntryUses>, bytes: &[u8]) -> Use
        ensures { (table : Option Table) → AreUsesAt table uses.now
            → result ≡ use_by table (read_at table bytes.now) }
    {
        match uses {
            Some(uses) => uses.use_for(bytes),
            None => use_without_table(bytes),
        }
    }
}

/// What a port without a table uses for a frame: nothing, whether it can be read or not.
fn use_without_table(bytes: &[u8]) -> Use
    ensures { result ≡ use_by None (read_at None bytes.now) }
{
    match view(bytes, CUSTOMER_TPID) {
        Ok(_) => Use::NoTable,
        Err(_) => Use::Unread,
    }
}
