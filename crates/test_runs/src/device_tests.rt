//! What is read and written where a reader or a writer fails at any byte, or gives or takes one at a time.

use crate::devices::Source;
use script_replay::{ReplayFault, replay, report_replay};
use std::alloc::Global;
use std::process::Abort;
use std::test::Fail;
use test_fixtures::{Sink, same};

/// How many bytes each line of the script has, and its answer: four messages, a frame, a message and a frame.
const LENGTHS: [(usize, usize); 7] = [
    (99, 99),
    (99, 99),
    (99, 99),
    (99, 99),
    (39, 40),
    (99, 99),
    (39, 48),
];

/// A script that makes port 257, sends it an untagged frame, has its table push a tag to such frames and sends it again.
const SCRIPT: &str = concat!(
    "o 0001440a010c040104008001030000000000000000000000000000000000000000000000000000000000002800000000\n",
    "o 0002440a010a050104010506010000000000000000000000000000000000000000000000000000000000002800000000\n",
    "o 0003440a0082060101010501050105010501050105010501050101000100000000000000000000000000002800000000\n",
    "o 0004440a00ab070102010100000000000000000000000000000000000000000000000000000000000000002800000000\n",
    "f 257 02000000000102000000000208004500\n",
    "o 0005480a00ab07010400f8000000f8000000000f00000000032400000000000000000000000000000000002800000000\n",
    "f 257 02000000000102000000000208004500\n",
);

/// The answers to it.
const ANSWERS: &str = concat!(
    "r 0001240a010c040100000000000000000000000000000000000000000000000000000000000000000000002800000000\n",
    "r 0002240a010a050100000000000000000000000000000000000000000000000000000000000000000000002800000000\n",
    "r 0003240a0082060100000000000000000000000000000000000000000000000000000000000000000000002800000000\n",
    "r 0004240a00ab070100000000000000000000000000000000000000000000000000000000000000000000002800000000\n",
    "g 1024 02000000000102000000000208004500\n",
    "r 0005280a00ab070100000000000000000000000000000000000000000000000000000000000000000000002800000000\n",
    "g 1024 0200000000010200000000028100006408004500\n",
);

/// How many bytes the answers have to the lines that end in so many bytes of the script.
fn answered_within(read: usize) -> usize {
    let mut end = 0usize;
    let mut answered = 0usize;
    for (line, answer) in LENGTHS {
        end = end.saturating_add(line);
        if end <= read {
            answered = answered.saturating_add(answer);
        }
    }
    answered
}

/// Replays a script that comes and is answered in pieces of so many bytes.
fn replay_pieces(rt: &impl Abort, alloc: Global, given: usize, taken: usize) {
    let mut source = Source {
        bytes: SCRIPT.as_bytes(),
        most: given,
        fails: false,
    };
    let mut sink = Sink::new(alloc, taken, usize::MAX, false);
    same!(rt; replay(alloc, &mut source, &mut sink), Ok(()));
    same!(rt;
        sink.bytes.as_slice(),
        ANSWERS.as_bytes(),
        "{given} bytes a read, {taken} a write"
    );
}

#[test]
fn pieces_of_one_byte_make_no_difference(rt: HostRuntime) {
    same!(rt; answered_within(SCRIPT.len()), ANSWERS.len());
    for (given, taken) in [(1, usize::MAX), (usize::MAX, 1), (1, 1)] {
        replay_pieces(&rt, rt.alloc(), given, taken);
    }
}

/// Replays the first bytes of a script, which come in pieces of so many, by a reader that fails then.
fn fail_to_read(rt: &impl Abort, alloc: Global, given: &[u8], wanted: &[u8], most: usize) {
    let mut source = Source {
        bytes: given,
        most,
        fails: true,
    };
    let mut written = Vec::new(alloc);
    let result = replay(alloc, &mut source, &mut written);
    let read = given.len();
    same!(rt; result, Err(ReplayFault::Read(read as u64)));
    same!(rt; written.as_slice(), wanted, "after {read} bytes by {most}");
}

/// Replays the first bytes of a script, byte by byte and at once. None where there are fewer.
fn fail_after(rt: &impl Abort, alloc: Global, read: usize) -> Option<()> {
    let (given, _) = SCRIPT.as_bytes().split_at_checked(read)?;
    let answers = ANSWERS.as_bytes();
    let (wanted, _) = answers.split_at_checked(answered_within(read))?;
    for most in [1, usize::MAX] {
        fail_to_read(rt, alloc, given, wanted, most);
    }
    Some(())
}

#[test]
fn a_reader_that_fails_at_any_byte_loses_no_answer(rt: HostRuntime) -> Result<(), Fail> {
    for read in 0..=SCRIPT.len() {
        fail_after(&rt, rt.alloc(), read).ok_or("short")?;
    }
    Ok(())
}

/// Replays a script for a writer that takes what is wanted, and then fails or takes none.
fn fail_to_write(rt: &impl Abort, alloc: Global, script: &str, wanted: &[u8], fails: bool) {
    let taken = wanted.len();
    let mut sink = Sink::new(alloc, 10, taken, fails);
    let mut reader = script.as_bytes();
    let result = replay(alloc, &mut reader, &mut sink);
    same!(rt; result, Err(ReplayFault::Write), "after {taken} bytes");
    same!(rt; sink.bytes.as_slice(), wanted, "after {taken} bytes");
}

/// Replays a script for writers that take so many bytes. None where the answers have fewer.
fn stop_after(rt: &impl Abort, alloc: Global, taken: usize) -> Option<()> {
    let (wanted, _) = ANSWERS.as_bytes().split_at_checked(taken)?;
    for fails in [false, true] {
        fail_to_write(rt, alloc, SCRIPT, wanted, fails);
    }
    Some(())
}

#[test]
fn a_writer_that_fails_at_any_byte_has_a_front_of_the_answers(rt: HostRuntime) -> Result<(), Fail> {
    for taken in 0..ANSWERS.len() {
        stop_after(&rt, rt.alloc(), taken).ok_or("short")?;
    }
    Ok(())
}

/// Compares a report, to writers that take so many bytes.
fn compare_reports(
    rt: &impl Abort,
    alloc: Global,
    outcome: &Result<(), ReplayFault>,
    words: &str,
    status: u8,
) {
    for room in 0..=words.len() {
        let mut sink = Sink::new(alloc, 100, room, true);
        same!(rt; report_replay(outcome, &mut sink), status, "{words}");
        same!(rt; sink.bytes.as_slice(), &words.as_bytes()[..room]);
    }
}

#[test]
fn a_report_has_the_words_and_the_status(rt: HostRuntime) {
    compare_reports(&rt, rt.alloc(), &Ok(()), "", 0);
    for (fault, words, number, status) in [
        (ReplayFault::BadLine(2), "line 2 is bad\n", 1, 2),
        (ReplayFault::Read(7), "read failed\n", 2, 1),
        (ReplayFault::Write, "write failed\n", 3, 1),
        (ReplayFault::NoMemory, "no memory\n", 4, 1),
    ] {
        compare_reports(&rt, rt.alloc(), &Err(fault), words, status);
        same!(rt; (fault.code(), fault.status()), (number, status));
    }
}
