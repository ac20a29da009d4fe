//! A table, and its index.
use crate::memory::Memory;
use crate::seen::{REFUSED_AGAIN, Seen, must, report};
use rule_index::Index;
use tag_view::view;
use test_draws::UNTAGGED;
use vlan_rule::{Entry, RuleTable};

/// The entries of a new table.
const PREDEFINED: [[u8; 16]; 3] = [
    [0xf0, 0, 0, 0, 0xf0, 0, 0, 0, 0, 0x0f, 0, 0, 0, 0x0f, 0, 0],
    [0xf0, 0, 0, 0, 0xe0, 0, 0, 0, 0, 0x0f, 0, 0, 0, 0x0f, 0, 0],
    [0xe0, 0, 0, 0, 0xe0, 0, 0, 0, 0, 0x0f, 0, 0, 0, 0x0f, 0, 0],
];

/// Whether a table holds the predefined entries.
fn is_new(table: &RuleTable) -> bool {
    for (place, bytes) in PREDEFINED.iter().enumerate() {
        if table.entry(place) != Some(Entry(*bytes)) {
            return false;
        }
    }
    table.len() == 3
}

/// A table, made again where there was no memory.
fn table_of(memory: &Memory) -> Result<RuleTable, &'static str> {
    match RuleTable::new(memory.first()) {
        Ok(table) => Ok(table),
        Err(_) => RuleTable::new(memory.again()).map_err(|_| REFUSED_AGAIN),
    }
}

/// An index, made again where there was no memory.
fn index_of(memory: &Memory) -> Result<Index, &'static str> {
    match Index::new(memory.first()) {
        Ok(index) => Ok(index),
        Err(_) => Index::new(memory.again()).map_err(|_| REFUSED_AGAIN),
    }
}

fn new_table(memory: &Memory) -> Seen {
    let table = table_of(memory)?;
    must(is_new(&table), "other entries than the predefined ones")
}

fn new_index(memory: &Memory) -> Seen {
    let mut index = index_of(memory)?;
    let Ok(frame) = view(&UNTAGGED, 0x8100) else {
        return Err("the frame isn't read");
    };
    must(index.find(&frame, 0x8100).is_none(), "an entry is found")?;
    let table = table_of(memory)?;
    index.rebuild(&table);
    must(
        index.find(&frame, 0x8100) == Some(0),
        "another entry is found",
    )
}

pub(crate) fn make_calls<R: Print>(rt: &R, memory: &Memory) {
    report(rt, memory, "RuleTable::new", new_table(memory));
    report(rt, memory, "Index::new", new_index(memory));
}
