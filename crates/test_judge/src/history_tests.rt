//! Histories in pieces that are cut anywhere, and what no text shows of their events and faults. Lines by hand are rows of
//! `tests/judged_plainly`.
use crate::shown::{Shown, show};
use bench_history::{Digits, Event, Extent, HistoryFault, Pieces, SeenGem, read_history};
use bench_judge::JudgeFault;
use script_lines::MOST_SPELLED;
use std::alloc::{AllocError, Global};
use std::process::Abort;
use std::test::Fail;
use test_fixtures::{holds, same};

/// A history of a line of each kind, some with digits of both cases, fronts of frames, and numbers with zeros in front.
const EACH_KIND: &str = "# a history\n\
    o 0001440a010c0401\n\
    r 0001240A010C0401ff\n\
    f 257 AD0800\n\
    f 00000 \n\
    w\n\
    w 1\n\
    w 0000000000\n\
    \n\
    g 0000000001 00009 \n\
    g 0 65535 aDfE\n\
    f 65535 12\n\
    d 2\n\
    o \n\
    r \n\
    f 7 aB..\n\
    g 3 any ..\n\
    f 0 00\n\
    l 0000000004\n\
    f 1 \n\
    f 2 \n\
    a 00012 0F.. 5 0000000006\n\
    a any  6\n\
    s 00012 0F..\n\
    s any \n\
    e\n\
    # the end\n";

const EACH_SHOWN: [Shown<'static>; 27] = [
    Shown::Nothing,
    Shown::Sent(&[0x00, 0x01, 0x44, 0x0a, 0x01, 0x0c, 0x04, 0x01]),
    Shown::Replied(&[0x00, 0x01, 0x24, 0x0a, 0x01, 0x0c, 0x04, 0x01, 0xff]),
    Shown::Entered(257, Extent::Whole, &[0xad, 0x08, 0x00]),
    Shown::Entered(0, Extent::Whole, &[]),
    Shown::Waited(None),
    Shown::Waited(Some(1)),
    Shown::Waited(Some(0)),
    Shown::Nothing,
    Shown::Left(1, SeenGem::Port(9), Extent::Whole, &[]),
    Shown::Left(0, SeenGem::Port(65535), Extent::Whole, &[0xad, 0xfe]),
    Shown::Entered(65535, Extent::Whole, &[0x12]),
    Shown::Dropped(2),
    Shown::Sent(&[]),
    Shown::Replied(&[]),
    Shown::Entered(7, Extent::Front, &[0xab]),
    Shown::Left(3, SeenGem::Any, Extent::Front, &[]),
    Shown::Entered(0, Extent::Whole, &[0x00]),
    Shown::Lost(4),
    Shown::Entered(1, Extent::Whole, &[]),
    Shown::Entered(2, Extent::Whole, &[]),
    Shown::LeftOneOf(
        SeenGem::Port(12),
        Extent::Front,
        &[0x0f],
        [Some(5), Some(6), None],
    ),
    Shown::LeftOneOf(SeenGem::Any, Extent::Whole, &[], [Some(6), None, None]),
    Shown::Strayed(SeenGem::Port(12), Extent::Front, &[0x0f]),
    Shown::Strayed(SeenGem::Any, Extent::Whole, &[]),
    Shown::Ended,
    Shown::Nothing,
];

/// A text in three parts, the middle one empty, the first of so many bytes.
fn pieces_of(alloc: Global, text: &str, at: usize) -> Result<Pieces, AllocError> {
    let (front, behind) = text.as_bytes().split_at(at.min(text.len()));
    let mut parts = Vec::new(alloc);
    parts.push(front.to_vec(alloc)?)?;
    parts.push(Vec::new(alloc))?;
    parts.push(behind.to_vec(alloc)?)?;
    Pieces::join(alloc, parts)
}

/// Compares the events of the history of each kind of line with those of it in parts.
fn compare_parts(rt: &impl Abort, alloc: Global, at: usize) {
    let mut buffer = [0; MOST_SPELLED];
    let pieces = pieces_of(alloc, EACH_KIND, at).expect(rt, "room for pieces");
    let events = pieces.read(alloc).expect(rt, "a history without a fault");
    same!(rt; events.len(), EACH_SHOWN.len(), "cut at {at}");
    for (event, wanted) in events.iter().zip(&EACH_SHOWN) {
        same!(rt; show(event, &mut buffer), *wanted, "cut at {at}");
    }
}

#[test]
fn a_history_in_pieces_has_the_same_events_wherever_it_is_cut(rt: HostRuntime) {
    for at in 0..=EACH_KIND.len() {
        compare_parts(&rt, rt.alloc(), at);
    }
}

/// A history whose third line is bad.
const BAD: &str = "o \nw\nx 00\nw\n";

/// Looks at the line by which that history is refused, in parts.
fn look_at_bad_parts(rt: &impl Abort, alloc: Global, at: usize) {
    let pieces = pieces_of(alloc, BAD, at).expect(rt, "room for pieces");
    let line = match pieces.read(alloc) {
        Err(HistoryFault::BadLine(line)) => Some(line),
        _ => None,
    };
    same!(rt; line, Some(3), "cut at {at}");
}

#[test]
fn a_bad_line_of_a_history_in_pieces_has_its_number(rt: HostRuntime) {
    for at in 0..=BAD.len() {
        look_at_bad_parts(&rt, rt.alloc(), at);
    }
}

/// Looks at the bytes of a message, by each call.
fn compare_message(rt: &impl Abort, event: Option<&Event<'_>>, digits: &str, wanted: &[u8]) {
    let mut buffer = [0x5a; MOST_SPELLED];
    let Some(Event::Sent { message }) = event else {
        holds!(rt; false, "{digits} is no message");
        return;
    };
    same!(rt; message.len(), wanted.len(), "{digits}");
    same!(rt; message.is_empty(), wanted.is_empty(), "{digits}");
    same!(rt; message.read(&mut buffer), wanted, "{digits}");
    same!(rt; message.as_digits(), digits.as_bytes(), "{digits}");
}

#[test]
fn digits_stay_as_they_are(rt: HostRuntime) {
    let events = read_history(rt.alloc(), b"o \r\no 0aF0\no fFEe01\r").expect(
        &rt,
        "three messages",
    );
    compare_message(&rt, events.get(0), "", &[]);
    compare_message(&rt, events.get(1), "0aF0", &[0x0a, 0xf0]);
    compare_message(&rt, events.get(2), "fFEe01", &[0xff, 0xee, 0x01]);
}

#[test]
fn events_are_small_and_faults_have_words(rt: HostRuntime) -> Result<(), Fail> {
    same!(rt; (size_of::<Digits<'static>>(), size_of::<Event<'static>>()), (16, 32));
    let (read, no_room) = (HistoryFault::BadLine(7), HistoryFault::NoMemory);
    let (line, memory) = (JudgeFault::BadLine(7), JudgeFault::NoMemory);
    same!(rt; (line.code(), memory.code()), (1, 2));
    same!(
        rt; format!(in rt.alloc(); "{read}, {no_room}, {line}, {memory}")?.as_str(),
        "line 7 is bad, no memory, line 7 is bad, no memory"
    );
    Ok(())
}
