//! Which entry of the table in force at a port is used for a frame.
ghost use Rattle.std.specs.Prelude.{◌≡◌};
ghost use Rattle.bench_forward.specs.Entries.{AreNumbered};

use arrayvec::ArrayVec;
use explain::number_of;
use frame_meaning::PortTable;
use mib_state::Mib;
use rule_index::Index;
use std::alloc::{AllocError, Global};
use tag_view::view;
use vlan_rule::RuleTable;

/// What the number of the entry that is used for a frame is found by, without a look at each entry.
#[derive(Drop)]
pub(crate) struct EntryNumbers {
    index: Index,
    input_tpid: u16,
    // By the place of an entry.
    numbers: ArrayVec<usize, 128>,
    ghost numbered: { AreNumbered index numbers.items },
}

/// The number of each entry of a table, by their places.
fn numbers_of(table: &RuleTable) -> ArrayVec<usize, 128>
    ensures { AreNumbered table.now result.items }
{
    let mut numbers = ArrayVec::new();
    for place in 0..table.len() {
        if let Some(number) = number_of(table, place) {
            numbers.push(number);
        }
    }
    numbers
}

impl EntryNumbers {
    ghost use Rattle.std.specs.Prelude.{◌≡◌, ℕ, IfOk};
    ghost use Rattle.frame_meaning.specs.Meaning.{Table, table_at};
    ghost use Rattle.tag_view.specs.Frame.{frame_of};
    ghost use Rattle.bench_forward.specs.Entries.{number_used};
    ghost use Rattle.bench_forward.specs.EntryNumbers.{AreNumbersAt, IsNumberingOf};

    /// Those of the table in force at a port, if one is.
    pub(crate) fn at(
        alloc: Global,
        mib: &Mib,
        port: u16,
    ) -> Result<Option<EntryNumbers>, AllocError>
        ensures { IfOk result (λ numbers. AreNumbersAt (table_at mib.now.entities port) numbers) }
    {
        match PortTable::at(mib, port) {
            Some(table) => Ok(Some(Self::of(alloc, table)?)),
            None => Ok(None),
        }
    }

    /// Those of a table.
    fn of(alloc: Global, table: PortTable<'_>) -> Result<EntryNumbers, AllocError>
        ensures { IfOk result (IsNumberingOf table.entry) }
    {
        let mut index = Index::new(alloc)?;
        index.rebuild(table.rules);
        Ok(EntryNumbers {
            index,
            input_tpid: table.settings.input_tpid,
            numbers: numbers_of(table.rules),
        })
    }

    /// The number of the entry that is used for a frame, or None where none is: it can't be read, or no entry matches it.
    pub(crate) fn number_for(&self, bytes: &[u8]) -> Option<usize>
        ensures { (table : Table) → IsNumberingOf table self.now
            → result ≡ number_used table (frame_of table.settings.input_tpid bytes.now) }
    {
        let Ok(frame) = view(bytes, self.input_tpid) else {
            return None;
        };
        let place = self.index.find(&frame, self.input_tpid)?;
        Some(self.numbers[place])
    }
}
