//! The classes of worked configurations of port 257, each derived from the rules by hand.
use crate::plainly::Listed;
use crate::provisioning::{
    CUT, Change, Class, DELETION, DISCARD, DROPPED, LEFT, LESS_ONE, LESS_TWO, NO_MAPPER, NO_POINT,
    NO_RULE, NOWHERE, RUNT, TAG_BY_DSCP_46, TAGGING, UNCHANGED, provision,
};
use forward_plan::Live;
use frame_classes::{ClassExample, Use, classes};
use std::alloc::{AllocError, Global};
use std::process::Abort;
use std::test::Fail;
use tag_view::{FrameFault, view};
use test_fixtures::{holds, same};

/// A configuration by its name, the changes that make it, and the classes of frames of at least so many bytes.
type Worked = (
    &'static str,
    &'static [Change],
    &'static [(usize, &'static [Class])],
);

/// By attributes 2, 10 and 11 priority 0 leads nowhere, and a frame that leaves without a tag has priority 1 by each DSCP, and 0 without.
const EACH_DSCP: Change = Change::Mapper(
    0x4060,
    &[
        0xff, 0xff, 0x00, 0x24, 0x92, 0x49, 0x24, 0x92, 0x49, 0x24, 0x92, 0x49, 0x24, 0x92, 0x49,
        0x24, 0x92, 0x49, 0x24, 0x92, 0x49, 0x24, 0x92, 0x49, 0x24, 0x92, 0x49,
    ],
);

/// By attributes 5, 7, 10, 11 and 12 priority 3 leads to an interworking point that isn't there and priority 5 nowhere. A frame that
/// leaves without a tag has priority 5 by DSCP 46, 0 by each other, and 3 without.
const DSCP_46: Change = Change::Mapper(
    0x0a70,
    &[
        0x05, 0x99, 0xff, 0xff, 0x00, 0, 0, 0, 0, 0, 0, 0, 0, 0, 0, 0, 0, 0, 0, 0, 0, 0, 0x28, 0,
        0, 0, 0, 0, 0, 0x03,
    ],
);

const WORKED: [Worked; 18] = [
    (
        "the predefined entries",
        &[],
        &[
            (
                0,
                &[
                    RUNT,
                    CUT,
                    (Use::Entry(0), LEFT),
                    (Use::Entry(1), LEFT),
                    (Use::Entry(2), LEFT),
                ],
            ),
            (
                60,
                &[
                    (Use::Entry(0), LEFT),
                    (Use::Entry(1), LEFT),
                    (Use::Entry(2), LEFT),
                ],
            ),
        ],
    ),
    (
        "no table in force",
        &[Change::Table(0x8000, &[0]), DSCP_46],
        &[(
            0,
            &[
                RUNT,
                CUT,
                (Use::NoTable, LEFT),
                (Use::NoTable, NOWHERE),
                (Use::NoTable, NO_POINT),
            ],
        )],
    ),
    (
        "no mapper: a rule discards before",
        &[
            Change::Mapper(0x8000, &[0x01, 0x02]),
            Change::Entry(0xf8000000_e8000000, DROPPED),
        ],
        &[(
            0,
            &[
                RUNT,
                CUT,
                (Use::Entry(0), DISCARD),
                (Use::Entry(1), NO_MAPPER),
                (Use::Entry(3), NO_MAPPER),
            ],
        )],
    ),
    (
        "no entry for two tags",
        &[Change::Entry(0xe0000000_e0000000, DELETION)],
        &[(
            0,
            &[
                RUNT,
                CUT,
                (Use::Entry(0), LEFT),
                (Use::Entry(1), LEFT),
                (Use::NoEntry, NO_RULE),
            ],
        )],
    ),
    (
        "a predefined entry behind one for all of its frames",
        &[TAGGING],
        &[(
            0,
            &[
                RUNT,
                CUT,
                (Use::Entry(0), LEFT),
                (Use::Entry(2), LEFT),
                (Use::Entry(3), LEFT),
            ],
        )],
    ),
    (
        "a default entry before an ordinary one in the table",
        &[
            Change::Entry(0xf8000000_e8000000, DROPPED),
            Change::Entry(0xf8000000_80320000, UNCHANGED),
        ],
        &[(
            0,
            &[
                RUNT,
                CUT,
                (Use::Entry(0), LEFT),
                (Use::Entry(1), DISCARD),
                (Use::Entry(2), LEFT),
                (Use::Entry(4), LEFT),
            ],
        )],
    ),
    (
        "a priority that leads nowhere, kept in tags",
        &[TAGGING, Change::Mapper(0x0200, &[0x05, 0x99])],
        &[(
            0,
            &[
                RUNT,
                CUT,
                (Use::Entry(0), LEFT),
                (Use::Entry(2), LEFT),
                (Use::Entry(2), NO_POINT),
                (Use::Entry(3), LEFT),
                (Use::Entry(3), NO_POINT),
            ],
        )],
    ),
    // Without a DSCP are IPv4 packets alone that end before its byte: frames of 14 and 15 bytes, of 18 and 19, and of 22 and 23.
    (
        "frames that end before the DSCP",
        &[
            EACH_DSCP,
            Change::Entry(0xf8000000_f8000001, UNCHANGED),
            Change::Entry(0xf8000000_88000001, LESS_ONE),
            Change::Entry(0x88000000_88000001, LESS_TWO),
        ],
        &[
            (
                0,
                &[
                    RUNT,
                    CUT,
                    (Use::Entry(0), LEFT),
                    (Use::Entry(0), NOWHERE),
                    (Use::Entry(1), LEFT),
                    (Use::Entry(1), NOWHERE),
                    (Use::Entry(2), LEFT),
                    (Use::Entry(2), NOWHERE),
                    (Use::Entry(3), LEFT),
                    (Use::Entry(3), NOWHERE),
                    (Use::Entry(4), LEFT),
                    (Use::Entry(4), NOWHERE),
                    (Use::Entry(5), LEFT),
                    (Use::Entry(5), NOWHERE),
                ],
            ),
            (
                16,
                &[
                    CUT,
                    (Use::Entry(0), LEFT),
                    (Use::Entry(1), LEFT),
                    (Use::Entry(1), NOWHERE),
                    (Use::Entry(2), LEFT),
                    (Use::Entry(2), NOWHERE),
                    (Use::Entry(3), LEFT),
                    (Use::Entry(3), NOWHERE),
                    (Use::Entry(4), LEFT),
                    (Use::Entry(4), NOWHERE),
                    (Use::Entry(5), LEFT),
                    (Use::Entry(5), NOWHERE),
                ],
            ),
            (
                20,
                &[
                    CUT,
                    (Use::Entry(0), LEFT),
                    (Use::Entry(1), LEFT),
                    (Use::Entry(2), LEFT),
                    (Use::Entry(2), NOWHERE),
                    (Use::Entry(3), LEFT),
                    (Use::Entry(3), NOWHERE),
                    (Use::Entry(4), LEFT),
                    (Use::Entry(4), NOWHERE),
                    (Use::Entry(5), LEFT),
                    (Use::Entry(5), NOWHERE),
                ],
            ),
            (
                24,
                &[
                    (Use::Entry(0), LEFT),
                    (Use::Entry(1), LEFT),
                    (Use::Entry(2), LEFT),
                    (Use::Entry(3), LEFT),
                    (Use::Entry(3), NOWHERE),
                    (Use::Entry(4), LEFT),
                    (Use::Entry(4), NOWHERE),
                    (Use::Entry(5), LEFT),
                    (Use::Entry(5), NOWHERE),
                ],
            ),
        ],
    ),
    (
        "a priority by the DSCP where no tag is left",
        &[DSCP_46, Change::Entry(0xf8000000_e8000000, LESS_ONE)],
        &[(
            0,
            &[
                RUNT,
                CUT,
                (Use::Entry(0), LEFT),
                (Use::Entry(0), NOWHERE),
                (Use::Entry(0), NO_POINT),
                (Use::Entry(1), LEFT),
                (Use::Entry(1), NOWHERE),
                (Use::Entry(1), NO_POINT),
                (Use::Entry(3), LEFT),
                (Use::Entry(3), NOWHERE),
                (Use::Entry(3), NO_POINT),
            ],
        )],
    ),
    (
        "a tag's priority by the DSCP",
        &[
            TAG_BY_DSCP_46,
            Change::Mapper(0x0200, &[0xff, 0xff]),
            Change::Entry(0xf8000000_f8000000, 0x000f0000_000a0324),
        ],
        &[(
            0,
            &[
                RUNT,
                CUT,
                (Use::Entry(0), LEFT),
                (Use::Entry(0), NOWHERE),
                (Use::Entry(2), LEFT),
                (Use::Entry(2), NOWHERE),
                (Use::Entry(3), LEFT),
                (Use::Entry(3), NOWHERE),
            ],
        )],
    ),
    (
        "a tag's priority by the DSCP, 0 by each",
        &[
            Change::Mapper(0x0200, &[0xff, 0xff]),
            Change::Entry(0xf8000000_f8000000, 0x000f0000_000a0324),
        ],
        &[(
            0,
            &[
                RUNT,
                CUT,
                (Use::Entry(0), LEFT),
                (Use::Entry(2), LEFT),
                (Use::Entry(2), NOWHERE),
                (Use::Entry(3), LEFT),
                (Use::Entry(3), NOWHERE),
            ],
        )],
    ),
    // Its type begins a tag, but for the one behind two tags.
    (
        "an input TPID that is the type of IPv4",
        &[
            Change::Table(0x2000, &[0x08, 0x00]),
            Change::Entry(0xf8000000_f8000001, DROPPED),
            Change::Entry(0xf8000000_88005000, DROPPED),
            Change::Entry(0xf8000000_88000001, DROPPED),
            Change::Entry(0x88000000_88000001, DROPPED),
        ],
        &[(
            0,
            &[
                RUNT,
                CUT,
                (Use::Entry(1), DISCARD),
                (Use::Entry(3), DISCARD),
                (Use::Entry(4), LEFT),
                (Use::Entry(5), LEFT),
                (Use::Entry(6), LEFT),
            ],
        )],
    ),
    // A frame without a tag is no IPv6 packet, so by the predefined entry it has a DSCP as an IPv4 packet alone.
    (
        "an input TPID that is the type of IPv6",
        &[
            EACH_DSCP,
            Change::Table(0x2000, &[0x86, 0xdd]),
            Change::Entry(0xf8000000_f8000001, DROPPED),
            Change::Entry(0xf8000000_e8000000, LESS_ONE),
            Change::Entry(0xe8000000_e8000004, LESS_TWO),
        ],
        &[
            (
                0,
                &[
                    RUNT,
                    CUT,
                    (Use::Entry(0), DISCARD),
                    (Use::Entry(1), LEFT),
                    (Use::Entry(1), NOWHERE),
                    (Use::Entry(2), LEFT),
                    (Use::Entry(2), NOWHERE),
                    (Use::Entry(3), NOWHERE),
                    (Use::Entry(5), LEFT),
                    (Use::Entry(5), NOWHERE),
                ],
            ),
            (
                60,
                &[
                    (Use::Entry(0), DISCARD),
                    (Use::Entry(1), LEFT),
                    (Use::Entry(1), NOWHERE),
                    (Use::Entry(2), LEFT),
                    (Use::Entry(3), NOWHERE),
                    (Use::Entry(5), LEFT),
                    (Use::Entry(5), NOWHERE),
                ],
            ),
        ],
    ),
    (
        "the first VID and the last",
        &[
            Change::Entry(0xf8000000_87ff8000, DROPPED),
            Change::Entry(0xf8000000_80000000, DROPPED),
            Change::Entry(0x87ff8000_87ff8000, DROPPED),
        ],
        &[(
            0,
            &[
                RUNT,
                CUT,
                (Use::Entry(0), DISCARD),
                (Use::Entry(1), DISCARD),
                (Use::Entry(2), DISCARD),
                (Use::Entry(3), LEFT),
                (Use::Entry(4), LEFT),
                (Use::Entry(5), LEFT),
            ],
        )],
    ),
    // The input TPID with DEI 0, with DEI 1, and with either.
    (
        "two entries that hide a third together",
        &[
            Change::Entry(0xf8000000_88006000, DROPPED),
            Change::Entry(0xf8000000_88007000, UNCHANGED),
            Change::Entry(0xf8000000_88005000, UNCHANGED),
        ],
        &[(
            0,
            &[
                RUNT,
                CUT,
                (Use::Entry(0), DISCARD),
                (Use::Entry(1), LEFT),
                (Use::Entry(3), LEFT),
                (Use::Entry(4), LEFT),
                (Use::Entry(5), LEFT),
            ],
        )],
    ),
    (
        "eight priorities that hide two entries",
        &[
            Change::Entry(0xf8000000_08000000, DROPPED),
            Change::Entry(0xf8000000_18000000, DROPPED),
            Change::Entry(0xf8000000_28000000, DROPPED),
            Change::Entry(0xf8000000_38000000, DROPPED),
            Change::Entry(0xf8000000_48000000, DROPPED),
            Change::Entry(0xf8000000_58000000, DROPPED),
            Change::Entry(0xf8000000_68000000, DROPPED),
            Change::Entry(0xf8000000_78000000, DROPPED),
            Change::Entry(0xf8000000_80320000, UNCHANGED),
        ],
        &[(
            0,
            &[
                RUNT,
                CUT,
                (Use::Entry(0), DISCARD),
                (Use::Entry(1), DISCARD),
                (Use::Entry(2), DISCARD),
                (Use::Entry(3), DISCARD),
                (Use::Entry(4), DISCARD),
                (Use::Entry(5), DISCARD),
                (Use::Entry(6), DISCARD),
                (Use::Entry(7), DISCARD),
                (Use::Entry(9), LEFT),
                (Use::Entry(11), LEFT),
            ],
        )],
    ),
    // Each type of a filter, and 0x8864 beside 0x8863.
    (
        "every type of frames without a tag",
        &[
            Change::Entry(0xf8000000_f8000001, DROPPED),
            Change::Entry(0xf8000000_f8000002, UNCHANGED),
            Change::Entry(0xf8000000_f8000003, DROPPED),
            Change::Entry(0xf8000000_f8000004, UNCHANGED),
            Change::Entry(0xf8000000_f8000005, DROPPED),
        ],
        &[(
            60,
            &[
                (Use::Entry(0), DISCARD),
                (Use::Entry(1), LEFT),
                (Use::Entry(2), DISCARD),
                (Use::Entry(3), LEFT),
                (Use::Entry(4), DISCARD),
                (Use::Entry(5), LEFT),
                (Use::Entry(6), LEFT),
                (Use::Entry(7), LEFT),
            ],
        )],
    ),
    // With tags of 802.1Q and 802.1ad alone and both named, no frame is left for the predefined entry.
    (
        "both types of tags",
        &[
            Change::Entry(0xf8000000_88004000, DROPPED),
            Change::Table(0x2000, &[0x88, 0xa8]),
            Change::Entry(0xf8000000_88005000, UNCHANGED),
        ],
        &[(
            60,
            &[
                (Use::Entry(0), DISCARD),
                (Use::Entry(1), LEFT),
                (Use::Entry(2), LEFT),
                (Use::Entry(4), LEFT),
            ],
        )],
    ),
];

/// The classes of some examples.
fn classes_of(alloc: Global, examples: &[ClassExample]) -> Result<Vec<Class>, AllocError> {
    let mut got = Vec::new(alloc);
    for example in examples {
        got.push((example.class.used, example.class.ending))?;
    }
    Ok(got)
}

/// Checks what is listed for frames of at least so many bytes.
fn check_list(
    rt: &impl Abort,
    alloc: Global,
    live: &Live,
    name: &str,
    least: usize,
    wanted: &[Class],
) -> Result<(), AllocError> {
    let examples = classes(alloc, live.mib(), 257, least)?;
    let listed = Listed {
        name,
        number: wanted.len(),
        live,
        port: 257,
        least,
        examples: examples.as_slice(),
    };
    let got = classes_of(alloc, listed.examples)?;
    same!(rt; got.as_slice(), wanted, "{}", listed);
    listed.check(rt);
    Ok(())
}

/// Checks each list of a configuration.
fn check_lists(
    rt: &impl Abort,
    alloc: Global,
    live: &Live,
    name: &str,
    lists: &[(usize, &[Class])],
) -> Result<(), AllocError> {
    for (least, wanted) in lists {
        check_list(rt, alloc, live, name, *least, wanted)?;
    }
    Ok(())
}

/// Checks each configuration, before them one without entities.
fn check_worked(rt: &impl Abort, alloc: Global, live: &mut Live) -> Result<(), AllocError> {
    let none = [RUNT, CUT, (Use::NoTable, NO_MAPPER)];
    check_list(rt, alloc, live, "no entities", 0, &none)?;
    for (name, changes, lists) in &WORKED {
        provision(rt, live, changes);
        check_lists(rt, alloc, live, name, lists)?;
    }
    Ok(())
}

#[test]
fn worked_configurations_have_their_classes(rt: HostRuntime) -> Result<(), AllocError> {
    let mut live = Live::new(rt.alloc())?;
    check_worked(&rt, rt.alloc(), &mut live)
}

/// Checks a frame of which nothing is asked but how many tags it has.
fn check_plain(rt: &impl Abort, frame: &[u8], tags: usize) -> Result<(), FrameFault> {
    let read = view(frame, 0x8100)?;
    same!(rt; read.addresses(), [2, 0, 0, 0, 0, 1, 2, 0, 0, 0, 0, 2].as_slice());
    same!(rt; (read.tags().len(), read.ethertype()), (tags, 0x0800));
    for tag in read.tags() {
        same!(rt; tag.tpid(), 0x8100);
        holds!(rt; 1 <= tag.vid() && tag.vid() <= 4094);
    }
    Ok(())
}

/// Checks the frames that are listed for the predefined entries.
fn check_predefined(rt: &impl Abort, alloc: Global, live: &mut Live) -> Result<(), Fail> {
    provision(rt, live, &[]);
    let examples = classes(alloc, live.mib(), 257, 60)?;
    same!(rt; examples.len(), 3);
    for (tags, example) in examples.iter().enumerate() {
        check_plain(rt, example.frame.as_slice(), tags)?;
    }
    Ok(())
}

#[test]
fn a_frame_is_as_one_sends_it(rt: HostRuntime) -> Result<(), Fail> {
    let mut live = Live::new(rt.alloc())?;
    check_predefined(&rt, rt.alloc(), &mut live)
}
