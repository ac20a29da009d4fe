//! What worked configurations of port 257 see otherwise, each derived from the rules by hand.
use crate::pair::Pair;
use crate::provisioning::{
    CUT, Change, Class, DELETION, DISCARD, DROPPED, LEFT, NO_MAPPER, TAG_BY_DSCP_46, TAGGING,
    provision,
};
use crate::three::Three;
use forward_plan::{Live, Verdict};
use frame_classes::{Difference, FrameClass, Tear, Use, differences, torn, torn_by};
use omci_msg::{Action, Request};
use std::alloc::{AllocError, Global};
use std::process::Abort;
use std::test::Fail;
use tag_view::view;
use test_draws::{create_gem_port, create_interwork, create_mapper, create_table, request};
use test_fixtures::same;

/// Two configurations by a name and the changes that make each, and what they see otherwise of frames of at least so many bytes.
type WorkedPair = (
    &'static str,
    &'static [Change],
    &'static [Change],
    &'static [(usize, &'static [(Class, Class)])],
);

/// Three configurations by a name and the changes that make each, and what is torn.
type WorkedThree = (
    &'static str,
    [&'static [Change]; 3],
    &'static [(Class, Class, Class)],
);

/// The entry by which frames without a tag get one of VLAN 200, and its deletion.
const TAGGING_200: Change = Change::Entry(0xf8000000_f8000000, 0x000f0000_00000644);

const UNTAGGING: Change = Change::Entry(0xf8000000_f8000000, DELETION);

/// The entry by which frames without a tag get one of VLAN 100 with the priority of their DSCP.
const TAGGING_BY_DSCP: Change = Change::Entry(0xf8000000_f8000000, 0x000f0000_000a0324);

/// By attribute 8 of the table priority 1 by DSCP 0, and 0 by each other.
const TAG_BY_DSCP_0: Change = Change::Table(
    0x0100,
    &[
        0x20, 0, 0, 0, 0, 0, 0, 0, 0, 0, 0, 0, 0, 0, 0, 0, 0, 0, 0, 0, 0, 0, 0, 0,
    ],
);

/// The entry by which frames with one tag are dropped.
const ONE_TAG_DROPPED: Change = Change::Entry(0xf8000000_e8000000, DROPPED);

/// Another input TPID, and another downstream mode.
const INPUT_9100: Change = Change::Table(0x2000, &[0x91, 0x00]);

const DOWNSTREAM_1: Change = Change::Table(0x0800, &[1]);

/// The port's mapper becomes that of port 258.
const NO_MAPPER_HERE: Change = Change::Mapper(0x8000, &[0x01, 0x02]);

/// Entries by their numbers, of frames that leave.
const LEFT_0: Class = (Use::Entry(0), LEFT);

const LEFT_1: Class = (Use::Entry(1), LEFT);

const LEFT_2: Class = (Use::Entry(2), LEFT);

/// And of frames that are dropped since the port has no mapper.
const LOST_0: Class = (Use::Entry(0), NO_MAPPER);

const LOST_1: Class = (Use::Entry(1), NO_MAPPER);

const LOST_2: Class = (Use::Entry(2), NO_MAPPER);

const DISCARDED_0: Class = (Use::Entry(0), DISCARD);

const PAIRS: [WorkedPair; 7] = [
    (
        "frames without a tag get one",
        &[],
        &[TAGGING],
        &[(0, &[(LEFT_0, LEFT_0)]), (60, &[(LEFT_0, LEFT_0)])],
    ),
    // Longer frames leave with the same bytes, read as a tag or not.
    (
        "another input TPID: frames that the new reading cuts",
        &[],
        &[INPUT_9100],
        &[(0, &[(LEFT_0, CUT), (LEFT_1, CUT)]), (60, &[])],
    ),
    // Type 0x9100 behind one tag is a second tag then, and without a tag it is one.
    (
        "another input TPID: what was a type is a tag",
        &[ONE_TAG_DROPPED],
        &[ONE_TAG_DROPPED, INPUT_9100],
        &[
            (
                0,
                &[
                    (DISCARDED_0, CUT),
                    (DISCARDED_0, (Use::Entry(3), LEFT)),
                    (LEFT_1, CUT),
                    (LEFT_1, DISCARDED_0),
                ],
            ),
            (
                60,
                &[(DISCARDED_0, (Use::Entry(3), LEFT)), (LEFT_1, DISCARDED_0)],
            ),
        ],
    ),
    // Frames without a tag and with two are dropped for the same reason by entries with other numbers.
    (
        "frames with one tag are dropped for another reason",
        &[NO_MAPPER_HERE],
        &[NO_MAPPER_HERE, ONE_TAG_DROPPED],
        &[(0, &[(LOST_1, DISCARDED_0)])],
    ),
    (
        "another priority by one DSCP",
        &[TAGGING_BY_DSCP],
        &[TAGGING_BY_DSCP, TAG_BY_DSCP_46],
        &[(0, &[(LEFT_0, LEFT_0)])],
    ),
    ("another downstream mode", &[], &[DOWNSTREAM_1], &[(0, &[])]),
    (
        "an entry that is set and deleted",
        &[],
        &[TAGGING, UNTAGGING],
        &[(0, &[])],
    ),
];

const THREES: [WorkedThree; 7] = [
    (
        "an entry that is deleted and set again",
        [
            &[TAGGING],
            &[TAGGING, UNTAGGING],
            &[TAGGING, UNTAGGING, TAGGING_200],
        ],
        &[(LEFT_0, LEFT_0, LEFT_0)],
    ),
    (
        "a configuration that is the one before",
        [&[TAGGING], &[TAGGING], &[TAGGING, TAGGING_200]],
        &[],
    ),
    (
        "a configuration that is the one after",
        [&[TAGGING], &[TAGGING, TAGGING_200], &[TAGGING, TAGGING_200]],
        &[],
    ),
    (
        "frames that leave between alone",
        [&[NO_MAPPER_HERE], &[], &[NO_MAPPER_HERE]],
        &[
            (LOST_0, LEFT_0, LOST_0),
            (LOST_1, LEFT_1, LOST_1),
            (LOST_2, LEFT_2, LOST_2),
        ],
    ),
    (
        "frames that are dropped between alone",
        [&[], &[NO_MAPPER_HERE], &[]],
        &[
            (LEFT_0, LOST_0, LEFT_0),
            (LEFT_1, LOST_1, LEFT_1),
            (LEFT_2, LOST_2, LEFT_2),
        ],
    ),
    (
        "frames that are dropped for another reason between",
        [
            &[NO_MAPPER_HERE],
            &[NO_MAPPER_HERE, ONE_TAG_DROPPED],
            &[NO_MAPPER_HERE],
        ],
        &[],
    ),
    // By DSCP 0 the one before sees frames otherwise, and by DSCP 46 the one after: no frame is seen otherwise by both.
    (
        "frames of which some are seen otherwise before, and others after",
        [
            &[TAGGING_BY_DSCP, TAG_BY_DSCP_0],
            &[TAGGING_BY_DSCP],
            &[TAGGING_BY_DSCP, TAG_BY_DSCP_46],
        ],
        &[],
    ),
];

/// A class by its use and its ending.
fn parts(class: FrameClass) -> Class {
    (class.used, class.ending)
}

/// The classes of some differences.
fn classes_of_pairs(alloc: Global, list: &[Difference]) -> Result<Vec<(Class, Class)>, AllocError> {
    let mut got = Vec::new(alloc);
    for shown in list {
        got.push((parts(shown.before), parts(shown.after)))?;
    }
    Ok(got)
}

/// Checks what two configurations see otherwise of frames of at least so many bytes.
fn check_pair(
    rt: &impl Abort,
    alloc: Global,
    lives: (&Live, &Live),
    name: &str,
    least: usize,
    wanted: &[(Class, Class)],
) -> Result<(), AllocError> {
    let (one, other) = lives;
    let list = differences(alloc, one.mib(), other.mib(), 257, least)?;
    let got = classes_of_pairs(alloc, list.as_slice())?;
    same!(rt; got.as_slice(), wanted, "{name}, at least {least} bytes");
    let pair = Pair {
        one,
        other,
        port: 257,
        least,
        list: list.as_slice(),
    };
    pair.check_list(rt, alloc)
}

/// Checks each list of two configurations.
fn check_lists(
    rt: &impl Abort,
    alloc: Global,
    lives: (&Live, &Live),
    name: &str,
    lists: &[(usize, &[(Class, Class)])],
) -> Result<(), AllocError> {
    for (least, wanted) in lists {
        check_pair(rt, alloc, lives, name, *least, wanted)?;
    }
    Ok(())
}

/// Checks each two configurations.
fn check_pairs(
    rt: &impl Abort,
    alloc: Global,
    one: &mut Live,
    other: &mut Live,
) -> Result<(), AllocError> {
    for (name, before, after, lists) in &PAIRS {
        provision(rt, one, before);
        provision(rt, other, after);
        check_lists(rt, alloc, (one, other), name, lists)?;
    }
    Ok(())
}

#[test]
fn worked_pairs_have_their_differences(rt: HostRuntime) -> Result<(), AllocError> {
    let mut one = Live::new(rt.alloc())?;
    let mut other = Live::new(rt.alloc())?;
    check_pairs(&rt, rt.alloc(), &mut one, &mut other)
}

/// The classes of some tears.
fn classes_of_threes(
    alloc: Global,
    list: &[Tear],
) -> Result<Vec<(Class, Class, Class)>, AllocError> {
    let mut got = Vec::new(alloc);
    for shown in list {
        got.push((parts(shown.before), parts(shown.here), parts(shown.after)))?;
    }
    Ok(got)
}

/// A configuration between two others.
#[derive(Drop)]
struct Lives {
    before: Live,
    here: Live,
    after: Live,
}

impl Lives {
    fn new(alloc: Global) -> Result<Lives, AllocError> {
        Ok(Lives {
            before: Live::new(alloc)?,
            here: Live::new(alloc)?,
            after: Live::new(alloc)?,
        })
    }

    /// Checks what is torn.
    fn check(
        &self,
        rt: &impl Abort,
        alloc: Global,
        name: &str,
        wanted: &[(Class, Class, Class)],
    ) -> Result<(), AllocError> {
        let (before, here, after) = (&self.before, &self.here, &self.after);
        let list = torn(alloc, before.mib(), here.mib(), after.mib(), 257, 0)?;
        let got = classes_of_threes(alloc, list.as_slice())?;
        same!(rt; got.as_slice(), wanted, "{name}");
        let three = Three {
            before,
            here,
            after,
            port: 257,
            least: 0,
            list: list.as_slice(),
        };
        three.check_list(rt, alloc)
    }
}

/// Checks each three configurations.
fn check_threes(rt: &impl Abort, alloc: Global, lives: &mut Lives) -> Result<(), AllocError> {
    for (name, [before, here, after], wanted) in &THREES {
        provision(rt, &mut lives.before, before);
        provision(rt, &mut lives.here, here);
        provision(rt, &mut lives.after, after);
        lives.check(rt, alloc, name, wanted)?;
    }
    Ok(())
}

#[test]
fn worked_threes_have_their_tears(rt: HostRuntime) -> Result<(), AllocError> {
    let mut lives = Lives::new(rt.alloc())?;
    check_threes(&rt, rt.alloc(), &mut lives)
}

/// Leaves the port as it is without entities, and then provisioned by as many of some requests.
fn begin(live: &mut Live, requests: &[Request], count: usize) {
    live.apply(&request(Action::MibReset, 2, 0, &[]));
    for request in requests.iter().take(count) {
        live.apply(request);
    }
}

/// Checks that nothing is torn where the port is provisioned with its mapper first, and its GEM port last: frames are dropped for one
/// reason, then for another, and then they leave.
fn check_provisioned(rt: &impl Abort, alloc: Global, lives: &mut Lives) -> Result<(), AllocError> {
    let requests = [
        create_mapper(0x0601, 257, [0x0501; 8], 0),
        create_table(0x0701, 2, 257),
        create_interwork(0x0501),
        create_gem_port(3),
    ];
    begin(&mut lives.before, &requests, 0);
    begin(&mut lives.after, &requests, 4);
    for count in 1..4 {
        begin(&mut lives.here, &requests, count);
        lives.check(rt, alloc, "the port is provisioned, its GEM port last", &[])?;
    }
    Ok(())
}

#[test]
fn nothing_is_torn_where_a_port_is_provisioned(rt: HostRuntime) -> Result<(), AllocError> {
    let mut lives = Lives::new(rt.alloc())?;
    check_provisioned(&rt, rt.alloc(), &mut lives)
}

/// The tags with which a frame leaves, or none where it is dropped.
fn tags_of(alloc: Global, live: &Live, frame: &[u8]) -> Result<Vec<[u8; 4]>, AllocError> {
    let mut tags = Vec::new(alloc);
    if let Verdict::Forward { frame, .. } = live.forward(257, frame) {
        for tag in frame.tags() {
            tags.push(tag.bytes())?;
        }
    }
    Ok(tags)
}

/// Checks that a frame comes without a tag, and leaves by these configurations with these tags.
fn check_tags(
    rt: &impl Abort,
    alloc: Global,
    frame: &[u8],
    wanted: &[(&Live, &[[u8; 4]])],
) -> Result<(), Fail> {
    same!(rt; view(frame, 0x8100)?.tags().len(), 0);
    for (live, tags) in wanted {
        let got = tags_of(alloc, live, frame)?;
        same!(rt; got.as_slice(), *tags, "the tags of {frame:?}");
    }
    Ok(())
}

/// Checks what becomes of the frames that are shown where an entry that tags them is set, and where it is deleted and set again.
fn check_tagged(rt: &impl Abort, alloc: Global, lives: &mut Lives) -> Result<(), Fail> {
    provision(rt, &mut lives.before, &[TAGGING]);
    provision(rt, &mut lives.here, &[TAGGING, UNTAGGING]);
    provision(rt, &mut lives.after, &[TAGGING, UNTAGGING, TAGGING_200]);
    let (before, here, after) = (&lives.before, &lives.here, &lives.after);
    let wanted: [(&Live, &[[u8; 4]]); 3] = [
        (before, &[[0x81, 0x00, 0x00, 0x64]]),
        (here, &[]),
        (after, &[[0x81, 0x00, 0x00, 0xc8]]),
    ];
    let list = differences(alloc, here.mib(), before.mib(), 257, 0)?;
    for shown in &list {
        check_tags(rt, alloc, shown.frame.as_slice(), &wanted)?;
    }
    let list = torn(alloc, before.mib(), here.mib(), after.mib(), 257, 0)?;
    for shown in &list {
        check_tags(rt, alloc, shown.frame.as_slice(), &wanted)?;
    }
    Ok(())
}

#[test]
fn a_shown_frame_leaves_with_the_tags_of_each(rt: HostRuntime) -> Result<(), Fail> {
    let mut lives = Lives::new(rt.alloc())?;
    check_tagged(&rt, rt.alloc(), &mut lives)
}

/// How many tears are listed of the frames for which the table uses this between.
fn count_by(alloc: Global, lives: &Lives, used: Use) -> Result<usize, AllocError> {
    let (before, here, after) = (lives.before.mib(), lives.here.mib(), lives.after.mib());
    Ok(torn_by(alloc, before, here, after, 257, 0, used)?.len())
}

/// Checks that the tears of one entry are listed alone: where each entry's frames are dropped between, and where those of the first are.
fn check_entries(rt: &impl Abort, alloc: Global, lives: &mut Lives) -> Result<(), AllocError> {
    provision(rt, &mut lives.before, &[]);
    provision(rt, &mut lives.here, &[NO_MAPPER_HERE]);
    provision(rt, &mut lives.after, &[]);
    for (used, wanted) in [
        (Use::Entry(0), 1),
        (Use::Entry(2), 1),
        (Use::Entry(3), 0),
        (Use::Unread, 0),
    ] {
        same!(rt; count_by(alloc, lives, used)?, wanted, "{used:?}");
    }
    Ok(())
}

#[test]
fn the_tears_of_one_entry_are_listed_alone(rt: HostRuntime) -> Result<(), AllocError> {
    let mut lives = Lives::new(rt.alloc())?;
    check_entries(&rt, rt.alloc(), &mut lives)
}
