//! VLAN tagging operation tables, the rules of entries, and what becomes of tags by them. The dialogues (`tests/dialogues/filters.dialogues`
//! and others) ask the program which entry is used and what leaves.
ghost use Rattle.std.specs.Prelude.{◌≤◌};

use pmapper::{Mapper, pointer, priority};
use std::process::Abort;
use std::test::Fail;
use tag_view::{DscpMap, Tag, view};
use test_fixtures::{holds, same};
use treatment::{Treat, Treated, treat};
use vlan_rule::{
    AddedTag, EligibleSource, Entry, EthertypeFilter, Filter, PriorityFilter, PrioritySource, Put,
    Rank, Retag, Rule, RuleFault, RuleTable, TABLE_MAX_SIZE, TableFault, TableSettings, TagFilter,
    TpidFilter, TpidSource, Treatment, VidFilter, VidSource, law_of_choice,
};

/// The last eight bytes of an entry that changes nothing, of one that drops the frame, and of a deletion.
pub(crate) const UNCHANGED: u64 = 0x000f0000_000f0000;

pub(crate) const DROPPED: u64 = 0xc00f0000_000f0000;

pub(crate) const DELETION: u64 = 0xffffffff_ffffffff;

/// An entry by its first and its last eight bytes.
pub(crate) fn entry(key: u64, rest: u64) -> Entry {
    let [a0, a1, a2, a3, a4, a5, a6, a7] = key.to_be_bytes();
    let [b0, b1, b2, b3, b4, b5, b6, b7] = rest.to_be_bytes();
    Entry([
        a0, a1, a2, a3, a4, a5, a6, a7, b0, b1, b2, b3, b4, b5, b6, b7,
    ])
}

/// Two keys.
const A: u64 = 0xf8000000_f8000000;

const B: u64 = 0xf8000000_f8000001;

/// What is put, one after another, and what is told.
const PUTS: [(u64, u64, Result<Put, TableFault>); 14] = [
    (A, 0x000f0000_00000324, Ok(Put::Added)),
    (B, 0x000f0000_00000644, Ok(Put::Added)),
    (B, 0x000f0000_00000964, Ok(Put::Replaced)),
    (A, 0x000f0000_0000032c, Ok(Put::Replaced)),
    (A, DELETION, Ok(Put::Deleted)),
    (A, 0x000f0000_00000324, Ok(Put::Added)),
    (0xe0000000_e0000000, DELETION, Ok(Put::Deleted)),
    (0xe0000000_e0000000, DELETION, Ok(Put::Absent)),
    (
        0xf8000000_f8000002,
        0x000f0000_00007ffc,
        Err(TableFault::Bad(RuleFault::TreatVid)),
    ),
    (0xf8000000_f8000002, DELETION, Ok(Put::Absent)),
    (
        0xf8000000_98000000,
        UNCHANGED,
        Err(TableFault::Bad(RuleFault::Priority)),
    ),
    (0xf8000000_98000000, DELETION, Ok(Put::Absent)),
    (
        0x38000000_e8000000,
        UNCHANGED,
        Err(TableFault::Bad(RuleFault::Mixed)),
    ),
    (0x38000000_e8000000, DELETION, Ok(Put::Absent)),
];

/// Puts one entry after another.
fn put_all(rt: &impl Abort, table: &mut RuleTable) {
    for (key, rest, told) in &PUTS {
        let put = entry(*key, *rest);
        same!(rt; table.check(&put), *told, "{key:016x}");
        same!(rt; table.put(put), *told, "{key:016x}");
    }
}

/// Fills a table with entries of its own VIDs.
fn fill(rt: &impl Abort, table: &mut RuleTable) {
    for vid in 1..126 {
        let put = table.put(entry(0xf8000000_80000000 + vid * 32768, UNCHANGED));
        same!(rt; put, Ok(Put::Added), "VID {vid}");
    }
}

/// Looks at a table after entries were put, after a reset and where it is full.
fn look_at_table(rt: &impl Abort, table: &mut RuleTable) {
    put_all(rt, table);
    same!(rt; table.len(), 4);
    same!(rt; table.entry(2), Some(entry(B, 0x000f0000_00000964)));
    same!(rt; table.entry(3), Some(entry(A, 0x000f0000_00000324)));
    same!(rt; table.entry(4), None);
    same!(rt; table.rule(3).map(|rule| rule.filter), Some(Filter::NoTag));
    holds!(rt; table.rule(4).is_none());
    table.reset();
    same!(rt; table.entry(2), Some(entry(0xe0000000_e0000000, UNCHANGED)));
    fill(rt, table);
    same!(rt; (table.len(), TABLE_MAX_SIZE), (128, 128));
    let one_more = entry(0xf8000000_803f0000, UNCHANGED);
    same!(rt; table.check(&one_more), Err(TableFault::Full));
    same!(rt; table.put(one_more), Err(TableFault::Full));
    let held = entry(0xf8000000_803e8000, DROPPED);
    same!(rt; table.put(held), Ok(Put::Replaced));
    same!(rt; (table.entry(127), table.entry(128)), (Some(held), None));
}

#[test]
fn a_table_takes_what_may_be_put(rt: HostRuntime) -> Result<(), Fail> {
    let mut table = RuleTable::new(rt.alloc())?;
    look_at_table(&rt, &mut table);
    law_of_choice();
    Ok(())
}

/// A filter of one tag by its VID.
fn by_vid(vid: u16) -> Filter {
    Filter::OneTag(TagFilter {
        vid: VidFilter::Exactly(vid),
        ..TagFilter::ANY
    })
}

/// An added tag with the TPID 0x8100.
fn tag(priority: PrioritySource, vid: u16) -> AddedTag {
    AddedTag {
        priority,
        vid: VidSource::Fixed(vid),
        tpid: TpidSource::Standard,
        eligible: EligibleSource::Clear,
    }
}

/// So many tags go, and an inner tag is added.
fn retag(remove: u8, inner: Option<AddedTag>) -> Treatment {
    Treatment::Retag(Retag {
        remove,
        outer: None,
        inner,
    })
}

/// Two tags, by priority 5, VID 7 and the input TPID without DE outside, and by the input TPID with DE inside.
const BOTH: Filter = Filter::TwoTag {
    outer: TagFilter {
        priority: PriorityFilter::Exactly(5),
        vid: VidFilter::Exactly(7),
        tpid: TpidFilter::InputNotEligible,
    },
    inner: TagFilter {
        tpid: TpidFilter::InputEligible,
        ..TagFilter::ANY
    },
};

/// Two tags go, and one of the outer and one of the DSCP are added.
const REPLACED: Treatment = Treatment::Retag(Retag {
    remove: 2,
    outer: Some(AddedTag {
        priority: PrioritySource::Outer,
        vid: VidSource::Outer,
        tpid: TpidSource::Output,
        eligible: EligibleSource::Outer,
    }),
    inner: Some(AddedTag {
        priority: PrioritySource::Dscp,
        vid: VidSource::Inner,
        tpid: TpidSource::Output,
        eligible: EligibleSource::Set,
    }),
});

/// The parts of rules, and the entries that they are spelled as.
fn spelled() -> [(Filter, EthertypeFilter, Treatment, u64, u64); 7] {
    [
        (
            Filter::NoTag,
            EthertypeFilter::Any,
            retag(0, Some(tag(PrioritySource::Fixed(0), 100))),
            0xf8000000_f8000000,
            0x000f0000_00000324,
        ),
        (
            by_vid(100),
            EthertypeFilter::Any,
            retag(1, Some(tag(PrioritySource::Inner, 200))),
            0xf8000000_80320000,
            0x400f0000_00080644,
        ),
        (
            Filter::NoTag,
            EthertypeFilter::Any,
            retag(0, Some(tag(PrioritySource::Dscp, 100))),
            0xf8000000_f8000000,
            0x000f0000_000a0324,
        ),
        (
            Filter::OneTagDefault,
            EthertypeFilter::Any,
            Treatment::Discard,
            0xf8000000_e8000000,
            DROPPED,
        ),
        (
            Filter::TwoTagDefault,
            EthertypeFilter::Any,
            retag(0, None),
            0xe8000000_e8000000,
            UNCHANGED,
        ),
        (
            Filter::TwoTag {
                outer: TagFilter::ANY,
                inner: TagFilter::ANY,
            },
            EthertypeFilter::Any,
            retag(2, None),
            0x88000000_88000000,
            0x800f0000_000f0000,
        ),
        (
            BOTH,
            EthertypeFilter::Pppoe,
            REPLACED,
            0x5003e000_88007002,
            0x8009800b_000a8007,
        ),
    ]
}

/// A rule of parts is spelled as an entry, and is the rule of that entry.
fn is_spelled(
    rt: &impl Abort,
    filter: Filter,
    ethertype: EthertypeFilter,
    treatment: Treatment,
    spelled: Entry,
) {
    let read = Rule::read(&spelled).expect(rt, "a rule");
    same!(rt; (read.filter, read.ethertype), (filter, ethertype));
    same!(rt; read.treatment, treatment);
    same!(rt; (read.rank, read.rank.number()), (Rank::Ordinary, 0));
}

#[test]
fn rules_of_parts_are_spelled_as_the_standard_writes_them(rt: HostRuntime) {
    for (filter, ethertype, treatment, key, rest) in spelled() {
        let made = Rule::new(filter, ethertype, treatment);
        let spelled = made.as_ref().map(|rule| rule.spell());
        same!(rt; spelled, Some(entry(key, rest)), "{key:016x}");
    }
    let translated = entry(0xf8000000_80320000, 0x400f0000_00080644);
    let moved = retag(1, Some(tag(PrioritySource::Inner, 200)));
    is_spelled(&rt, by_vid(100), EthertypeFilter::Any, moved, translated);
    let copied = entry(0x5003e000_88007002, 0x8009800b_000a8007);
    is_spelled(&rt, BOTH, EthertypeFilter::Pppoe, REPLACED, copied);
}

#[test]
fn a_rule_of_a_predefined_key_keeps_it(rt: HostRuntime) -> Result<(), Fail> {
    for key in [
        0xf0000000_f0000000,
        0xf0000000_e0000000,
        0xe0000000_e0000000,
    ] {
        let rule = Rule::read(&entry(key, DROPPED))?;
        same!(rt; (rule.rank, rule.spell()), (Rank::Predefined, entry(key, DROPPED)));
    }
    Ok(())
}

/// Parts that no entry says.
fn unspelled() -> [(Filter, Treatment); 6] {
    [
        (by_vid(4096), retag(0, None)),
        (
            Filter::OneTag(TagFilter {
                priority: PriorityFilter::Exactly(8),
                ..TagFilter::ANY
            }),
            retag(0, None),
        ),
        (Filter::NoTag, retag(3, None)),
        (
            Filter::NoTag,
            retag(0, Some(tag(PrioritySource::Fixed(8), 1))),
        ),
        (
            Filter::NoTag,
            retag(0, Some(tag(PrioritySource::Fixed(7), 4095))),
        ),
        (
            Filter::NoTag,
            retag(
                0,
                Some(AddedTag {
                    eligible: EligibleSource::Set,
                    ..tag(PrioritySource::Fixed(0), 1)
                }),
            ),
        ),
    ]
}

#[test]
fn parts_that_no_entry_says_make_no_rule(rt: HostRuntime) {
    for (filter, treatment) in unspelled() {
        same!(rt; Rule::new(filter, EthertypeFilter::Any, treatment), None);
    }
    let greatest = Rule::new(by_vid(4095), EthertypeFilter::Any, retag(0, None));
    holds!(rt; greatest.is_some());
}

/// DSCP 46 has priority 5, and all others 0.
const FORWARDING: DscpMap = DscpMap([
    0, 0, 0, 0, 0, 0, 0, 0, 0, 0, 0, 0, 0, 0, 0, 0, 0, 0x28, 0, 0, 0, 0, 0, 0,
]);

const SETTINGS: TableSettings = TableSettings {
    input_tpid: 0x8100,
    output_tpid: 0x9100,
    dscp_map: FORWARDING,
};

/// An IPv4 packet of DSCP 46 behind a tag with priority 3, DE 1 and VID 100 round one with priority 6, DE 0 and VID 200.
const TWO_TAGS: &[u8] = &[
    2, 0, 0, 0, 0, 1, 2, 0, 0, 0, 0, 2, 0x88, 0xa8, 0x70, 0x64, 0x81, 0x00, 0xc0, 0xc8, 0x08, 0x00,
    0x45, 0xb8,
];

/// The words of the tags that it leaves with where two are added.
const FOUR: [u32; 4] = [0x9100212c, 0x8100c0c8, 0x88a87064, 0x8100c0c8];

/// The words of tags.
fn words_of(treated: &Treated) -> Option<[u32; 4]> {
    match treated {
        Treated::Tags(tags) => match tags.as_slice() {
            [a, b, c, d] => Some([a.word(), b.word(), c.word(), d.word()]),
            _ => None,
        },
        _ => None,
    }
}

#[test]
fn a_frame_leaves_with_the_tags_of_its_treatment(rt: HostRuntime) -> Result<(), Fail> {
    let frame = view(TWO_TAGS, 0x8100)?;
    let rule = Rule::read(&entry(A, 0x00010966_00088000))?;
    same!(rt; words_of(&treat(&rule, &SETTINGS, &frame)), Some(FOUR));
    let compiled = Treat::of(&rule.treatment, &SETTINGS, 2);
    let words = compiled.map(|treat| (treat.count(), treat.words(0x88a87064, 0x8100c0c8, 0)));
    same!(rt; words, Some((4, FOUR)));
    let dropped = Rule::read(&entry(A, DROPPED))?;
    holds!(rt; Treat::of(&dropped.treatment, &SETTINGS, 1).is_none());
    Ok(())
}

/// Whether a treatment asks for the DSCP.
const ASKING: [(&str, u64, bool); 6] = [
    ("no tag is added", 0x000f0000_000f0000, false),
    ("a fixed priority", 0x000f0000_00000324, false),
    ("that of a received tag", 0x00080644_00090644, false),
    ("the inner tag's is the DSCP's", 0x000f0000_000a0324, true),
    ("the outer tag's is the DSCP's", 0x000a0324_000f0000, true),
    ("the inner of two is the DSCP's", 0x00010966_000a0324, true),
];

/// Whether a treatment of frames with so many tags asks for the DSCP.
fn asks(rule: &Rule, received: usize) -> Option<bool>
    requires { received ≤ 2 }
{
    Treat::of(&rule.treatment, &SETTINGS, received).map(|treat| treat.uses_dscp())
}

#[test]
fn a_compiled_treatment_asks_for_the_dscp_where_a_tag_takes_its_priority(
    rt: HostRuntime,
) -> Result<(), Fail> {
    for (what, treatments, want) in &ASKING {
        let rule = Rule::read(&entry(A, *treatments))?;
        let asked = [asks(&rule, 0), asks(&rule, 1), asks(&rule, 2)];
        same!(rt; asked, [Some(*want); 3], "{what}");
    }
    Ok(())
}

/// A mapper whose pointer of priority 3 is null; frames without a tag have the priority of the DSCP, or 3.
const BY_DSCP: Mapper = Mapper {
    tp_pointer: 0x0101,
    interwork_tp_pointers: [
        0x0501, 0x0599, 0x0501, 0xffff, 0x0501, 0x0501, 0x00ff, 0xff00,
    ],
    unmarked_frame_option: 0,
    dscp_map: FORWARDING,
    default_p_bit_assumption: 3,
    tp_type: 1,
};

#[test]
fn a_frame_has_a_priority_and_that_a_pointer(rt: HostRuntime) {
    same!(rt; priority(&BY_DSCP, &[], Some(46)), 5);
    same!(rt; priority(&BY_DSCP, &[], None), 3);
    let tags = [
        Tag::new(0x88a8, 2, false, 100),
        Tag::new(0x8100, 5, false, 100),
    ];
    same!(rt; priority(&BY_DSCP, &tags, Some(46)), 2);
    let pointers = [
        pointer(&BY_DSCP, 1),
        pointer(&BY_DSCP, 3),
        pointer(&BY_DSCP, 6),
        pointer(&BY_DSCP, 7),
    ];
    same!(rt; pointers, [Some(0x0599), None, Some(0x00ff), Some(0xff00)]);
}
