//! Entities with their plan, call by call: what leaves, what each change compiles, and the meaning that a plain walk finds. Drawn messages and
//! frames are asked of the program (`tests/drawn`).
use forward_plan::{Compiled, Live, NoMemory, Reason, Verdict, law_of_compiled, plain_walk};
use mib_state::Mib;
use omci_msg::{Action, Request};
use std::alloc::{AllocError, Global};
use std::process::Abort;
use tag_view::Tag;
use test_draws::{
    DOUBLE, UNTAGGED, create_gem_port, create_interwork, create_mapper, create_table, delete,
    request, set,
};
use test_fixtures::{holds, same};

/// The GEM port of a frame that leaves, its addresses, its tags and what follows them, or the reason to drop it.
type Parts<'v> = Result<(u16, &'v [u8], &'v [Tag], &'v [u8]), Reason>;

/// The parts of a verdict.
fn parts<'v>(verdict: &'v Verdict<'_>) -> Parts<'v> {
    match verdict {
        Verdict::Forward { gem, frame } => {
            Ok((*gem, frame.addresses(), frame.tags(), frame.rest()))
        }
        Verdict::Drop(reason) => Err(*reason),
    }
}

/// Entities that lead port 257 to port-ID 1024.
fn led(alloc: Global) -> Result<Mib, AllocError> {
    let mut mib = Mib::new(alloc)?;
    for request in [
        create_gem_port(3),
        create_interwork(0x0501),
        create_mapper(0x0601, 257, [0x0501; 8], 0),
    ] {
        let _ = mib.step(&request);
    }
    Ok(mib)
}

/// What becomes of a frame, when the entities are gone.
fn verdict_of<'a>(rt: &impl Abort, alloc: Global, bytes: &'a [u8]) -> Verdict<'a> {
    let mib = led(alloc).expect(rt, "room for entities");
    plain_walk(&mib, 257, bytes)
}

#[test]
fn what_leaves_outlives_the_entities(rt: HostRuntime) {
    let verdict = verdict_of(&rt, rt.alloc(), &DOUBLE);
    let tags = [
        Tag::new(0x88a8, 5, false, 100),
        Tag::new(0x8100, 2, false, 200),
    ];
    same!(rt; parts(&verdict), Ok((1024, &DOUBLE[..12], &tags[..], &DOUBLE[20..])));
}

/// The frame without a tag, when it leaves with one of VLAN 100 and priority 0.
const TAGGED: [u8; 20] = [
    2, 0, 0, 0, 0, 1, 2, 0, 0, 0, 0, 2, 0x81, 0x00, 0x00, 0x64, 0x08, 0x00, 0x45, 0x00,
];

/// Leaves the entities that lead port 257 to port-ID 1024, with a table that keeps tags, and no other.
fn lead(live: &mut Live) {
    for sent in [
        request(Action::MibReset, 2, 0, &[]),
        create_gem_port(3),
        create_interwork(0x0501),
        create_mapper(0x0601, 257, [0x0501; 8], 0),
        create_table(0x0701, 2, 257),
    ] {
        live.apply(&sent);
    }
}

/// A Set of an entry by which frames without a tag get one of VLAN 100.
fn tagging() -> Request {
    let entry = [
        0xf8, 0, 0, 0, 0xf8, 0, 0, 0, 0x00, 0x0f, 0x00, 0x00, 0x00, 0x00, 0x03, 0x24,
    ];
    set(171, 0x0701, 0x0400, &entry)
}

/// The bytes that leave by a verdict, behind one that was there.
fn left(alloc: Global, verdict: &Verdict) -> Result<Vec<u8>, NoMemory> {
    let mut bytes = [0xee].to_vec(alloc)?;
    if let Verdict::Forward { frame, .. } = verdict {
        frame.append_to(&mut bytes)?;
    }
    Ok(bytes)
}

/// Checks that by each of some verdicts certain bytes leave through port-ID 1024.
fn check_verdicts(
    rt: &impl Abort,
    alloc: Global,
    verdicts: &[Verdict],
    bytes: &[u8],
) -> Result<(), NoMemory> {
    for verdict in verdicts {
        same!(rt; parts(verdict).map(|parts| parts.0), Ok(1024));
        same!(rt; left(alloc, verdict)?.split_first(), Some((&0xee, bytes)));
    }
    Ok(())
}

/// Checks that a frame leaves port 257 through port-ID 1024 with certain bytes, by each call for it.
fn check_left(
    rt: &impl Abort,
    alloc: Global,
    live: &Live,
    frame: &[u8],
    bytes: &[u8],
) -> Result<(), NoMemory> {
    let forwarded = [
        live.port(257).forward(frame),
        live.plan().port(257).forward(frame),
        live.forward(257, frame),
        plain_walk(live.mib(), 257, frame),
    ];
    check_verdicts(rt, alloc, &forwarded, bytes)?;
    let mut verdicts = Vec::with_capacity(alloc, 1)?;
    live.port(257).push(frame, &mut verdicts);
    same!(rt; verdicts.len(), 1);
    check_verdicts(rt, alloc, &verdicts, bytes)
}

/// The frame without a tag, with bytes behind it.
const LONG: [u8; 24] = [
    2, 0, 0, 0, 0, 1, 2, 0, 0, 0, 0, 2, 0x08, 0x00, 0x45, 0x00, 0, 0, 0, 0, 0, 0, 0, 0,
];

/// The frames of a list, of which each has another length or number of tags than the one before: how many bytes of which frame, and
/// the words of the tags that each leaves with.
const MIX: [(&[u8], usize, Result<&[u32], Reason>); 6] = [
    (&LONG, 24, Ok(&[0x8100_0064])),
    (&DOUBLE, 24, Ok(&[0x88a8_a064, 0x8100_40c8])),
    (&UNTAGGED, 16, Ok(&[0x8100_0064])),
    (&TAGGED, 20, Ok(&[0x8100_0064])),
    (&TAGGED, 13, Err(Reason::Runt)),
    (&DOUBLE, 21, Err(Reason::CutTag)),
];

/// Checks with which tags a frame left.
fn check_tags(rt: &impl Abort, verdict: &Verdict, tags: &Result<&[u32], Reason>) {
    let left = parts(verdict).map(|parts| parts.2.len());
    same!(rt; left, tags.map(|tags| tags.len()));
    if let (Ok((_, _, left, _)), Ok(tags)) = (parts(verdict), tags) {
        for (tag, word) in left.iter().zip(*tags) {
            same!(rt; tag.word(), *word);
        }
    }
}

/// The frames of the list.
fn frames_of_mix(alloc: Global) -> Result<Vec<&'static [u8]>, NoMemory> {
    let mut frames = Vec::with_capacity(alloc, MIX.len())?;
    for (frame, len, _) in &MIX {
        let front = frame.split_at(frame.len().min(*len)).0;
        if frames.push(front).is_err() {
            return Err(NoMemory);
        }
    }
    Ok(frames)
}

/// Frames of a list leave as each of them does.
fn check_mix(rt: &impl Abort, alloc: Global, live: &Live) -> Result<(), NoMemory> {
    let frames = frames_of_mix(alloc)?;
    let mut verdicts = Vec::with_capacity(alloc, frames.len())?;
    live.port(257).push_all(&frames, &mut verdicts);
    same!(rt; verdicts.len(), MIX.len());
    for (verdict, (_, _, tags)) in verdicts.iter().zip(&MIX) {
        check_tags(rt, verdict, tags);
    }
    Ok(())
}

/// With which word of a tag the frame without one leaves port 257, if it leaves with one.
fn word_left(live: &Live) -> Left {
    let verdict = live.forward(257, &UNTAGGED);
    let (_, _, tags, _) = parts(&verdict)?;
    Ok(tags.first().map(|tag| tag.word()))
}

/// What becomes of the frame without a tag at port 257: the word of the tag that it leaves with, if it leaves with one.
type Left = Result<Option<u32>, Reason>;

/// It leaves with the tag that `tagging` gives.
const TAG: Left = Ok(Some(0x8100_0064));

/// It leaves as it came.
const PLAIN: Left = Ok(None);

/// A request, what it compiles, and what becomes of the frame then.
type Step = (Request, Compiled, Left);

const NOTHING: Compiled = Compiled {
    tables: 0,
    mappers: 0,
};

const A_TABLE: Compiled = Compiled {
    tables: 1,
    mappers: 0,
};

const A_MAPPER: Compiled = Compiled {
    tables: 0,
    mappers: 1,
};

const TWO_MAPPERS: Compiled = Compiled {
    tables: 0,
    mappers: 2,
};

const A_TABLE_AND_A_MAPPER: Compiled = Compiled {
    tables: 1,
    mappers: 1,
};

/// Follows requests one by one. Compiling everything anew after each changes nothing of what leaves then.
fn follow(rt: &impl Abort, live: &mut Live, steps: &[Step]) {
    lead(live);
    for (sent, rebuilt, left) in steps {
        live.apply(sent);
        same!(rt; (live.rebuilt(), word_left(live)), (*rebuilt, *left), "{sent:?}");
        live.recompile();
        same!(rt; word_left(live), *left, "{sent:?}, compiled anew");
    }
}

/// A table is compiled where it was set or comes, and moves where another comes before it. One that is set to point to another
/// port leaves the first.
fn table_steps() -> [Step; 12] {
    [
        (tagging(), A_TABLE, TAG),
        (create_table(0x0700, 2, 257), A_TABLE, PLAIN),
        (delete(171, 0x0700), NOTHING, TAG),
        (
            create_mapper(0x0600, 257, [0xffff; 8], 0),
            A_MAPPER,
            Err(Reason::NullPointer),
        ),
        (delete(130, 0x0600), NOTHING, TAG),
        (request(Action::Get, 171, 0x0701, &[0xff, 0]), NOTHING, TAG),
        (create_table(0x0701, 2, 258), NOTHING, TAG),
        (delete(171, 0x0701), NOTHING, PLAIN),
        (create_table(0x0701, 2, 257), A_TABLE, PLAIN),
        (tagging(), A_TABLE, TAG),
        (set(171, 0x0701, 0x0200, &[1, 2]), A_TABLE, PLAIN),
        (set(171, 0x0701, 0x0200, &[1, 1]), A_TABLE, TAG),
    ]
}

/// The routes of a mapper are compiled where they lead by the instance.
fn route_steps() -> [Step; 11] {
    [
        (
            set(266, 0x0501, 0x8000, &[4, 0x99]),
            A_MAPPER,
            Err(Reason::NoGem),
        ),
        (set(266, 0x0501, 0x8000, &[4, 1]), A_MAPPER, PLAIN),
        (
            set(268, 0x0401, 0x2000, &[2]),
            A_MAPPER,
            Err(Reason::Direction),
        ),
        (set(268, 0x0401, 0x2000, &[3]), A_MAPPER, PLAIN),
        (
            request(Action::Create, 268, 0x0402, &[4, 1, 0x80, 1, 3]),
            NOTHING,
            PLAIN,
        ),
        (create_interwork(0x0502), NOTHING, PLAIN),
        (create_mapper(0x0602, 258, [0x0502; 8], 0), A_MAPPER, PLAIN),
        (delete(266, 0x0501), A_MAPPER, Err(Reason::NoInterwork)),
        (create_interwork(0x0501), A_MAPPER, PLAIN),
        (delete(268, 0x0401), TWO_MAPPERS, Err(Reason::NoGem)),
        (
            request(Action::MibReset, 2, 0, &[]),
            NOTHING,
            Err(Reason::NoMapper),
        ),
    ]
}

/// A table that points to a mapper is that of the mapper's port.
fn steps_of_a_table_of_a_mapper() -> [Step; 8] {
    [
        (tagging(), A_TABLE, TAG),
        (set(171, 0x0701, 0x8200, &[1, 6, 1]), A_TABLE, TAG),
        (create_mapper(0x0600, 257, [0x0501; 8], 0), A_MAPPER, PLAIN),
        (set(171, 0x0701, 0x0200, &[6, 0]), A_TABLE, TAG),
        (set(130, 0x0600, 0x8000, &[1, 2]), A_MAPPER, PLAIN),
        (set(130, 0x0600, 0x8000, &[1, 1]), A_MAPPER, TAG),
        (delete(130, 0x0600), NOTHING, PLAIN),
        (delete(130, 0x0601), NOTHING, Err(Reason::NoMapper)),
    ]
}

/// A mapper is compiled where what it points to changes, and not for another instance, or one of another class and the same number.
fn steps_of_what_is_read() -> [Step; 7] {
    let pointers = [
        0x0501, 0x0502, 0x0503, 0x0504, 0x0505, 0x0506, 0x0507, 0xffff,
    ];
    [
        (create_mapper(0x0602, 258, pointers, 0), A_MAPPER, PLAIN),
        (create_interwork(0x0507), A_MAPPER, PLAIN),
        (create_interwork(0x0508), NOTHING, PLAIN),
        (
            request(Action::Create, 268, 0x0501, &[4, 2, 0x80, 1, 3]),
            NOTHING,
            PLAIN,
        ),
        (create_mapper(0x0501, 259, [0xffff; 8], 0), A_MAPPER, PLAIN),
        (create_table(0x0501, 2, 259), A_TABLE, PLAIN),
        (
            set(266, 0x0501, 0x8000, &[4, 0x99]),
            TWO_MAPPERS,
            Err(Reason::NoGem),
        ),
    ]
}

/// Frames leave by the plan as the entities say, after each change of these.
fn look_at_changes(rt: &impl Abort, alloc: Global, live: &mut Live) -> Result<(), NoMemory> {
    lead(live);
    check_left(rt, alloc, live, &UNTAGGED, &UNTAGGED)?;
    live.apply(&tagging());
    check_left(rt, alloc, live, &UNTAGGED, &TAGGED)?;
    check_left(rt, alloc, live, &DOUBLE, &DOUBLE)?;
    check_mix(rt, alloc, live)?;
    live.recompile();
    same!(rt; live.rebuilt(), A_TABLE_AND_A_MAPPER);
    follow(rt, live, &table_steps());
    follow(rt, live, &route_steps());
    follow(rt, live, &steps_of_a_table_of_a_mapper());
    follow(rt, live, &steps_of_what_is_read());
    law_of_compiled();
    Ok(())
}

#[test]
fn a_plan_follows_its_entities_where_they_change(rt: HostRuntime) {
    let mut live = Live::new(rt.alloc()).expect(&rt, "room for a plan");
    let done = look_at_changes(&rt, rt.alloc(), &mut live);
    holds!(rt; done.is_ok());
}
