//! The index of a table, call by call. Drawn tables and frames are asked of the program (`tests/drawn`).
use crate::table_tests::{DELETION, DROPPED, UNCHANGED, entry};
use rule_index::{Followed, Head, Index, law_of_order};
use std::alloc::Global;
use std::process::Abort;
use std::test::Fail;
use tag_view::view;
use test_fixtures::{frame, same};
use vlan_rule::RuleTable;

/// A frame's tags, and the place of the entry that is used for it in the table below.
const PLACES: [(&[u32], Option<usize>); 4] = [
    (&[0x8100a064], Some(4)),
    (&[0x8100a065], Some(3)),
    (&[], Some(0)),
    (&[0x88a80064, 0x810000c8], Some(2)),
];

/// Looks which entry is found for frames, by the index, by the number of a frame's head and by a walk. None is found by an index that
/// isn't that of its table yet.
fn look_for_entries(
    rt: &impl Abort,
    alloc: Global,
    index: &Index,
    table: &RuleTable,
    is_rebuilt: bool,
) -> Result<(), Fail> {
    for (tags, place) in &PLACES {
        let bytes = frame(alloc, tags, 0x0800)?;
        let frame = view(&bytes, 0x8100)?;
        let found = place.filter(|_| is_rebuilt);
        let number = index.number(&Head::read(&bytes, 0x8100)?, 0x8100);
        same!(rt; (index.find(&frame, 0x8100), index.order(number as u8)), (found, found), "{tags:?}");
        same!(rt; table.walk(&frame, 0x8100), *place, "{tags:?}");
    }
    Ok(())
}

/// What is put, one after another, and what the index says that it changed.
const FOLLOWS: [(&str, u64, u64, Followed); 12] = [
    (
        "nothing",
        0xf8000000_80320000,
        0x400f0000_00080644,
        Followed::Unchanged,
    ),
    (
        "of rank 0",
        0xf8000000_80320000,
        UNCHANGED,
        Followed::Treatment(0),
    ),
    (
        "the same again",
        0xf8000000_80320000,
        UNCHANGED,
        Followed::Unchanged,
    ),
    (
        "a default",
        0xf8000000_e8000000,
        UNCHANGED,
        Followed::Treatment(1),
    ),
    (
        "a predefined one",
        0xf0000000_f0000000,
        DROPPED,
        Followed::Treatment(2),
    ),
    (
        "no such key",
        0xf8000000_80500000,
        DELETION,
        Followed::Unchanged,
    ),
    (
        "a new key",
        0xf8000000_80500000,
        DROPPED,
        Followed::Added(1),
    ),
    (
        "the new one",
        0xf8000000_80500000,
        UNCHANGED,
        Followed::Treatment(1),
    ),
    (
        "the last by rank",
        0xe0000000_e0000000,
        DROPPED,
        Followed::Treatment(5),
    ),
    (
        "one is gone",
        0xf8000000_e8000000,
        DELETION,
        Followed::Deleted(2),
    ),
    (
        "the first by place",
        0xf0000000_f0000000,
        UNCHANGED,
        Followed::Treatment(2),
    ),
    (
        "the last is gone",
        0xf8000000_80500000,
        DELETION,
        Followed::Deleted(1),
    ),
];

/// Changes a table, and looks what the index says that it changed.
fn look_at_follows(rt: &impl Abort, index: &mut Index, table: &mut RuleTable) {
    for (what, key, rest, followed) in &FOLLOWS {
        let _ = table.put(entry(*key, *rest));
        same!(rt; index.follow(table), *followed, "{what}");
    }
}

/// The order of an index of the table below, which of its entries are of a kind with so many tags, and which admit an inner VID.
fn look_at_masks(rt: &impl Abort, index: &Index) {
    let order = [
        index.order(0),
        index.order(1),
        index.order(2),
        index.order(3),
        index.order(4),
        index.order(5),
    ];
    same!(rt; order, [Some(4), Some(3), Some(0), Some(1), Some(2), None]);
    let of_tags = [
        index.tag_mask(0),
        index.tag_mask(1),
        index.tag_mask(2),
        index.tag_mask(3),
    ];
    same!(rt; of_tags, [0x04, 0x0b, 0x10, 0]);
    let of_vids = [
        index.inner_vid_mask(100),
        index.inner_vid_mask(101),
        index.inner_vid_mask(0),
        index.inner_vid_mask(4095),
    ];
    same!(rt; of_vids, [0x1f, 0x1e, 0x1e, 0x1e]);
}

/// An index before it is that of a table, where it is, and where two treatments and then a key change between two steps.
fn look_at_index(
    rt: &impl Abort,
    alloc: Global,
    index: &mut Index,
    table: &mut RuleTable,
) -> Result<(), Fail> {
    same!(rt; (index.order(0), index.tag_mask(0), index.inner_vid_mask(100)), (None, 0, 0));
    look_for_entries(rt, alloc, index, table, false)?;
    same!(rt; index.follow(table), Followed::Rebuilt);
    look_at_masks(rt, index);
    look_for_entries(rt, alloc, index, table, true)?;
    look_at_follows(rt, index, table);
    let _ = table.put(entry(0xf8000000_80320000, DROPPED));
    let _ = table.put(entry(0xe0000000_e0000000, UNCHANGED));
    same!(rt; (index.follow(table), index.follow(table)), (Followed::Rebuilt, Followed::Unchanged));
    let _ = table.put(entry(0xf8000000_80500000, DROPPED));
    same!(rt; (index.approach(table), index.approach(table)), (Followed::Added(1), Followed::Unchanged));
    table.reset();
    index.rebuild(table);
    same!(rt; (index.order(0), index.order(3)), (Some(0), None));
    law_of_order();
    Ok(())
}

/// Makes a table of the predefined entries, a default that drops frames with one tag, and one of VID 100.
fn look_beside_a_table(rt: &impl Abort, alloc: Global, index: &mut Index) -> Result<(), Fail> {
    let mut table = RuleTable::new(alloc)?;
    table.put(entry(0xf8000000_e8000000, DROPPED))?;
    table.put(entry(0xf8000000_80320000, 0x400f0000_00080644))?;
    look_at_index(rt, alloc, index, &mut table)
}

#[test]
fn an_index_follows_its_table(rt: HostRuntime) -> Result<(), Fail> {
    let mut index = Index::new(rt.alloc())?;
    look_beside_a_table(&rt, rt.alloc(), &mut index)
}
