//! A replay of a script, a run over a capture, and the words of a command line.
use crate::memory::Memory;
use crate::seen::{REFUSED_AGAIN, Seen, must, report};
use capture::{ListFault, list_frames};
use clap::Error;
use clap::error::ErrorKind;
use command_line::{Words, read_words};
use hex::encode_to_slice;
use run_capture::{RunFault, RunSettings, run_over};
use script_replay::{ReplayFault, replay};
use std::alloc::Global;
use std::sync::Wait;
use std::thread::Threads;
use test_draws::{PORT_257, message};

/// A line with a message or a reply: its mark and a space, the digits of 48 bytes, and the line feed.
const LINE: usize = 99;

/// The reply to the message that creates a GEM port, by its digits.
const CREATED: &str = "0001240a010c040100";

/// A capture of two untagged frames, and of one that is cut in its tag.
const FILE: [u8; 118] = [
    0xd4, 0xc3, 0xb2, 0xa1, 2, 0, 4, 0, 0, 0, 0, 0, 0, 0, 0, 0, 0, 0, 4, 0, 1, 0, 0, 0, // header
    0, 0, 0, 0, 0, 0, 0, 0, 16, 0, 0, 0, 16, 0, 0, 0, // record
    2, 0, 0, 0, 0, 1, 2, 0, 0, 0, 0, 2, 0x08, 0x00, 0x45, 0x00, // frame
    0, 0, 0, 0, 0, 0, 0, 0, 16, 0, 0, 0, 16, 0, 0, 0, // record
    2, 0, 0, 0, 0, 1, 2, 0, 0, 0, 0, 2, 0x08, 0x00, 0x45, 0x00, // frame
    0, 0, 0, 0, 0, 0, 0, 0, 14, 0, 0, 0, 14, 0, 0, 0, // record
    2, 0, 0, 0, 0, 1, 2, 0, 0, 0, 0, 2, 0x81, 0x00,
];

/// How the frames are forwarded.
const SETTINGS: RunSettings = RunSettings {
    port: 257,
    lanes: 2,
    batch: 2,
    after: true,
};

/// What the run writes.
const LINES: &str = "accepted 5
batch 0 version 5 frames 2
batch 1 version 5 frames 1
frames 3
bytes 40
drop 2 1
gem 1024 2
";

/// The words that ask for that run.
const WORDS: [&str; 12] = [
    "onuctl", "run", "T", "--frames", "F", "--port", "257", "--lanes", "2", "--batch", "2",
    "--after",
];

/// What a run gave, and what it wrote: so many bytes of these.
#[derive(Drop)]
struct Ended {
    outcome: Result<(), RunFault>,
    page: [u8; 512],
    count: usize,
}

/// A line with a message or a reply.
fn line(mark: u8, digits: &str) -> [u8; LINE] {
    let mut text = [b' '; LINE];
    text[0] = mark;
    let _ = encode_to_slice(message(digits), &mut text[2..98]);
    text[98] = b'\n';
    text
}

/// The trace that makes port 257, with a table that pushes a tag.
fn trace() -> [u8; 495] {
    let mut text = [0; 495];
    for (place, digits) in PORT_257.iter().enumerate() {
        let begin = LINE * place;
        text[begin..begin + LINE].copy_from_slice(&line(b'o', digits));
    }
    text
}

/// A replay of the script that creates a GEM port, which has read and written nothing where there was no memory, and is made again.
fn call_replay(memory: &Memory) -> Seen {
    let script = line(b'o', PORT_257[0]);
    let mut page = [0; LINE];
    let (mut reader, mut room) = (script.as_slice(), page.as_mut_slice());
    let outcome = match replay(memory.first(), &mut reader, &mut room) {
        Err(ReplayFault::NoMemory) => {
            let same = reader.len() == LINE && room.len() == LINE;
            must(same, "a refused replay reads or writes")?;
            replay(memory.again(), &mut reader, &mut room)
        }
        outcome => outcome,
    };
    must(outcome.is_ok(), REFUSED_AGAIN)?;
    must(
        reader.is_empty() && room.is_empty(),
        "not all is read and written",
    )?;
    must(page == line(b'r', CREATED), "another answer")
}

/// Runs.
fn run<R: Threads + Wait + Sync>(rt: &R, alloc: Global) -> Ended {
    let mut page = [0; 512];
    let mut room = page.as_mut_slice();
    let outcome = run_over(rt, alloc, &trace(), &FILE, &SETTINGS, &mut room);
    let count = 512usize.saturating_sub(room.len());
    Ended {
        outcome,
        page,
        count,
    }
}

/// Whether all lines are written.
fn is_whole(ended: &Ended) -> bool {
    ended.outcome.is_ok() && ended.page.get(..ended.count) == Some(LINES.as_bytes())
}

/// A run, which has written nothing where there was no memory or a lane found no place, and is made again.
fn call_run_over<R: Threads + Wait + Sync>(rt: &R, memory: &Memory) -> Seen {
    let ended = run(rt, memory.first());
    match ended.outcome {
        Ok(()) => must(is_whole(&ended), "other lines"),
        Err(RunFault::NoMemory | RunFault::Refused) => {
            must(ended.count == 0, "a refused run writes")?;
            must(is_whole(&run(rt, memory.again())), REFUSED_AGAIN)
        }
        Err(_) => Err("another fault"),
    }
}

/// Whether words ask for the run.
fn is_asked(read: &Result<Words<'_>, Error>) -> bool {
    match read {
        Ok(Words::Run(words)) => {
            words.trace == "T" && words.frames == "F" && words.settings == SETTINGS && !words.json
        }
        _ => false,
    }
}

fn call_read_words(memory: &Memory) -> Seen {
    let read = read_words(memory.first(), &WORDS);
    match &read {
        Err(error) if error.kind() == ErrorKind::OutOfMemory => {
            must(is_asked(&read_words(memory.again(), &WORDS)), REFUSED_AGAIN)
        }
        read => must(is_asked(read), "the words ask for something else"),
    }
}

/// The frames of the capture, listed again where there was no memory.
fn call_list_frames(memory: &Memory) -> Seen {
    let listed = match list_frames(memory.first(), &FILE) {
        Err(ListFault::NoMemory) => list_frames(memory.again(), &FILE),
        listed => listed,
    };
    let Ok(frames) = listed else {
        return Err(REFUSED_AGAIN);
    };
    let are_those = match frames.as_slice() {
        [first, second, cut] => {
            *first == &FILE[40..56] && *second == &FILE[72..88] && *cut == &FILE[104..]
        }
        _ => false,
    };
    must(are_those, "other frames")
}

pub(crate) fn make_calls<R: Threads + Wait + Sync + Print>(rt: &R, memory: &Memory) {
    report(rt, memory, "replay", call_replay(memory));
    report(rt, memory, "list_frames", call_list_frames(memory));
    report(rt, memory, "run_over", call_run_over(rt, memory));
    report(rt, memory, "read_words", call_read_words(memory));
}
