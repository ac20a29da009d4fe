//! Texts of judgements that are made by hand: where no version is left, which no history shows, and where a writer is full. The dialogues
//! (`tests/dialogues`) ask the program for the texts of histories.
use bench_history::{Digits, Event, Extent, SeenGem, read_history};
use bench_judge::{
    Counts, Deviation, End, Evidence, Explanation, Judgement, Step, Wrong, WrongFrame,
};
use std::alloc::{AllocError, Global};
use std::io::Write;
use std::process::Abort;
use std::test::Fail;
use test_fixtures::same;
use text_deviations::Observed;
use text_judgements::{Told, write_judgement, write_judgement_json};
use text_writing::TextFault;

/// A frame with one tag as it was sent.
const SENT: &str = "f 65535 020000000001aB00000000CD810000640800Abcd";

/// A frame as it was seen to leave.
const SEEN: &str = "f 0 ABCDEF";

/// The digits in a line of a frame that was sent.
fn digits_of<'a>(rt: &impl Abort, alloc: Global, line: &'a str) -> Digits<'a> {
    let mut events = read_history(alloc, line.as_bytes()).expect(rt, "a history");
    match events.pop() {
        Some(Event::Entered { frame, .. }) => frame,
        _ => panic!(rt; "no frame in {line}"),
    }
}

/// The judgement of a frame to which no version is left, of which a front was seen to leave.
fn deviation<'a>(rt: &impl Abort, alloc: Global) -> Judgement<'a> {
    Judgement::Deviates(Deviation {
        line: 30,
        wrong: Wrong::Frame(WrongFrame {
            number: 7,
            port: 65535,
            sent_line: 20,
            extent: Extent::Whole,
            sent: digits_of(rt, alloc, SENT),
            seen: End::Left {
                gem: SeenGem::Any,
                extent: Extent::Front,
                frame: digits_of(rt, alloc, SEEN),
            },
            at_least: 6,
            at_most: 5,
            runs: Vec::new(alloc),
        }),
    })
}

const TOLD: Told = Told {
    allow_unfinished: false,
    start: None,
};

/// Writes a judgement of a history of which nothing else is known.
fn write_alone<W: Write>(
    alloc: Global,
    found: &Judgement<'_>,
    writer: &mut W,
) -> Result<(), TextFault> {
    let observed = Observed {
        parts: &[],
        start: &[],
        repeats: false,
        modelled: false,
    };
    write_judgement(alloc, found, &TOLD, &observed, writer)
}

const NO_VERSION: &str = "deviation at line 30\n\
    frame 7, sent into port 65535 at line 20\n\
    seen g any abcdef..\n\
    no version is left: at least 6 by frames before it or by what was waited for, at most 5\n";

const NO_VERSION_JSON: &str = "{\"format\":2,\"explained\":false,\"line\":30,\
    \"frame\":{\"number\":7,\"port\":65535,\"sent_line\":20,\
    \"seen\":{\"gem\":\"any\",\"front\":\"abcdef\"},\"at_least\":6,\"at_most\":5,\"versions\":[\n]}}\n";

#[test]
fn where_no_version_is_left_the_bounds_say_so(rt: HostRuntime) {
    let found = deviation(&rt, rt.alloc());
    let mut text = Vec::new(rt.alloc());
    same!(rt; write_alone(rt.alloc(), &found, &mut text), Ok(()));
    same!(rt; text.as_slice(), NO_VERSION.as_bytes());
    let mut json = Vec::new(rt.alloc());
    same!(rt; write_judgement_json(rt.alloc(), &found, &TOLD, &mut json), Ok(()));
    same!(rt; json.as_slice(), NO_VERSION_JSON.as_bytes());
}

/// The judgement of frames at two ports.
fn explanation(alloc: Global) -> Result<Judgement<'static>, AllocError> {
    let mut steps = Vec::with_capacity(alloc, 2)?;
    steps.push(Step {
        port: 257,
        version: 4,
        frame: 0,
        line: 12,
    })?;
    steps.push(Step {
        port: 65535,
        version: 6,
        frame: 3,
        line: 17,
    })?;
    Ok(Judgement::Explained(Explanation {
        counts: Counts {
            messages: 8,
            accepted: 6,
            replies: 7,
            forwarded: 3,
            dropped: 1,
            lost: 4,
            open: 2,
            strays: 5,
            doubtful: 9,
            cut: 6,
        },
        steps,
        finished: true,
        evidence: Evidence::Judged,
    }))
}

const EXPLAINED: &str = "messages 8 accepted 6 replies 7\n\
    frames 10 forwarded 3 dropped 1 open 2 strays 5 doubtful 9 lost 4 cut 6\n\
    port 257 version 4 from frame 0 line 12\n\
    port 65535 version 6 from frame 3 line 17\n\
    explained\n";

/// Writes the judgement into as many bytes as a front of its text has: they are filled with that.
fn write_front(rt: &impl Abort, alloc: Global, found: &Judgement<'_>, front: &[u8]) {
    let mut bytes = [0; 200];
    let room = front.len().min(200);
    let mut writer = &mut bytes[..room];
    let outcome = write_alone(alloc, found, &mut writer);
    same!(rt; outcome, Err(TextFault::Write), "{room} bytes");
    same!(rt; &bytes[..room], front);
}

#[test]
fn an_explained_history_has_counts_and_steps_and_a_full_writer_their_front(
    rt: HostRuntime,
) -> Result<(), Fail> {
    let found = explanation(rt.alloc())?;
    let mut text = Vec::new(rt.alloc());
    same!(rt; write_alone(rt.alloc(), &found, &mut text), Ok(()));
    same!(rt; text.as_slice(), EXPLAINED.as_bytes());
    for room in 0..EXPLAINED.len() {
        write_front(&rt, rt.alloc(), &found, &EXPLAINED.as_bytes()[..room]);
    }
    Ok(())
}
