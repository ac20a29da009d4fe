//! What an index finds beside what a walk finds, in tables of 128 entries that are drawn.
ghost use Rattle.std.specs.Prelude.{◌<◌, length};

use crate::table_tests::{DELETION, UNCHANGED, entry};
use rule_index::{Head, Index};
use std::alloc::{AllocError, Global};
use std::process::Abort;
use std::test::Fail;
use tag_view::{FrameFault, view};
use test_fixtures::{frame, holds, same};
use vlan_rule::{Entry, Filter, RuleTable, TABLE_MAX_SIZE, TableFault};

/// Numbers without an evident order, the same in each run.
#[derive(Drop)]
struct Draws {
    state: u64,
}

impl Draws {
    fn next(&mut self) -> u64 {
        self.state ^= self.state << 13;
        self.state ^= self.state >> 7;
        self.state ^= self.state << 17;
        self.state
    }

    fn of(&mut self, choices: &[u32]) -> u32
        requires { 0 < length choices.now }
    {
        choices[(self.next() % choices.len() as u64) as usize]
    }

    /// A filter of a tag.
    fn tag_filter(&mut self) -> u32 {
        let priority = self.of(&[8, 8, 3, 5]);
        let vid = self.of(&[4096, 1, 100, 101, 4095]);
        let tpid = self.of(&[0, 0, 4, 5, 6, 7]);
        priority << 28 | vid << 15 | tpid << 12
    }

    /// An entry of one of two kinds, with a number in its padding that makes its key one of its own.
    fn entry(&mut self, kinds: &[u32], number: u32) -> Entry
        requires { 0 < length kinds.now }
    {
        let filter = self.tag_filter();
        let (outer, inner) = match self.of(kinds) {
            0 => (0xf0000000, 0xf0000000),
            1 => (0xf0000000, 0xe0000000),
            2 => (0xf0000000, self.tag_filter()),
            3 => (0xe0000000, 0xe0000000),
            _ => (filter, self.tag_filter()),
        };
        let ethertype = self.of(&[0, 0, 1, 2, 3, 4, 5]);
        let key = u64::from(outer | number) << 32 | u64::from(inner | ethertype);
        entry(key, UNCHANGED)
    }

    /// The four bytes of a tag.
    fn tag(&mut self) -> u32 {
        let tpid = self.of(&[0x8100, 0x88a8, 0x9100]);
        let priority = self.of(&[3, 5, 6]);
        let dei = self.of(&[0, 1]);
        let vid = self.of(&[1, 100, 101, 4095, 7]);
        tpid << 16 | priority << 13 | dei << 12 | vid
    }

    /// The bytes of a frame.
    fn frame(&mut self, alloc: Global) -> Result<Vec<u8>, AllocError> {
        let tags = [self.tag(), self.tag(), self.tag()];
        let count = self.of(&[0, 1, 1, 2, 2, 3]) as usize;
        let ethertype = self.of(&[0x0800, 0x8863, 0x8864, 0x0806, 0x86dd, 0x888e, 0x1234]);
        frame(alloc, &tags[..count.min(3)], (ethertype % 0x10000) as u16)
    }
}

/// Deletes the predefined entries.
fn delete_predefined(table: &mut RuleTable) -> Result<(), TableFault> {
    for key in [
        0xf0000000_f0000000,
        0xf0000000_e0000000,
        0xe0000000_e0000000,
    ] {
        table.put(entry(key, DELETION))?;
    }
    Ok(())
}

/// Puts an entry of one of two kinds, where there is room.
fn draw_entry(
    table: &mut RuleTable,
    draws: &mut Draws,
    kinds: &[u32; 2],
    number: u32,
) -> Result<(), TableFault> {
    if table.len() < TABLE_MAX_SIZE as usize {
        table.put(draws.entry(kinds, number))?;
    }
    Ok(())
}

/// Makes a table of 128 entries of two kinds, with or without the predefined ones.
fn draw_table(table: &mut RuleTable, draws: &mut Draws) -> Result<(), TableFault> {
    table.reset();
    if draws.of(&[0, 1]) == 0 {
        delete_predefined(table)?;
    }
    let kinds = [
        draws.of(&[0, 1, 2, 2, 3, 4, 4, 4]),
        draws.of(&[0, 1, 2, 2, 3, 4, 4, 4]),
    ];
    for number in 1..=128 {
        draw_entry(table, draws, &kinds, number)?;
    }
    Ok(())
}

/// How often no entry was found, and how often one of each kind.
#[derive(Default, Drop)]
struct Seen {
    none: u32,
    no_tag: u32,
    one_tag_default: u32,
    one_tag: u32,
    two_tag_default: u32,
    two_tag: u32,
}

impl Seen {
    fn count(&mut self, filter: Option<Filter>) {
        let count = match filter {
            None => &mut self.none,
            Some(Filter::NoTag) => &mut self.no_tag,
            Some(Filter::OneTagDefault) => &mut self.one_tag_default,
            Some(Filter::OneTag(_)) => &mut self.one_tag,
            Some(Filter::TwoTagDefault) => &mut self.two_tag_default,
            Some(Filter::TwoTag { .. }) => &mut self.two_tag,
        };
        *count = count.saturating_add(1);
    }

    fn least(&self) -> u32 {
        self.none
            .min(self.no_tag)
            .min(self.one_tag_default)
            .min(self.one_tag)
            .min(self.two_tag_default)
            .min(self.two_tag)
    }
}

/// Looks a frame up in a table and its index, and gives the filter of the entry that both find.
fn compare_frame(
    rt: &impl Abort,
    table: &RuleTable,
    index: &Index,
    bytes: &[u8],
    input_tpid: u16,
) -> Result<Option<Filter>, FrameFault> {
    let frame = view(bytes, input_tpid)?;
    let walked = table.walk(&frame, input_tpid);
    same!(rt; index.find(&frame, input_tpid), walked);
    let number = index.number(&Head::read(bytes, input_tpid)?, input_tpid);
    same!(rt; index.order(number as u8), walked);
    Ok(
        walked
            .and_then(|place| table.rule(place))
            .map(|rule| rule.filter),
    )
}

/// Looks 100 frames up in a table and its index.
fn compare(
    rt: &impl Abort,
    alloc: Global,
    table: &RuleTable,
    index: &Index,
    draws: &mut Draws,
    seen: &mut Seen,
) -> Result<(), Fail> {
    for _ in 0..100 {
        let input_tpid = (draws.of(&[0x8100, 0x88a8, 0x9100]) % 0x10000) as u16;
        let bytes = draws.frame(alloc)?;
        let walked = compare_frame(rt, table, index, &bytes, input_tpid)?;
        seen.count(walked);
    }
    Ok(())
}

/// Draws tables and frames, and compares what is found with what a walk finds.
fn agree(
    rt: &impl Abort,
    alloc: Global,
    table: &mut RuleTable,
    index: &mut Index,
) -> Result<(), Fail> {
    let mut draws = Draws {
        state: 0x2545f4914f6cdd1d,
    };
    let mut seen = Seen::default();
    for _ in 0..1000 {
        draw_table(table, &mut draws)?;
        same!(rt; table.len(), 128);
        index.rebuild(table);
        compare(rt, alloc, table, index, &mut draws, &mut seen)?;
    }
    holds!(rt; seen.least() > 1000);
    Ok(())
}

/// The same in a table that is made.
fn agree_in_a_table(rt: &impl Abort, alloc: Global, index: &mut Index) -> Result<(), Fail> {
    let mut table = RuleTable::new(alloc)?;
    agree(rt, alloc, &mut table, index)
}

#[test]
fn find_agrees_with_a_walk(rt: HostRuntime) -> Result<(), Fail> {
    let mut index = Index::new(rt.alloc())?;
    agree_in_a_table(&rt, rt.alloc(), &mut index)
}
