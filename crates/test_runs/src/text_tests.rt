//! Texts that are written to what has no room for them, or read from what fails. The dialogues (`tests/dialogues`) ask the program for
//! whole texts.

use crate::devices::Source;
use mib_state::Mib;
use std::alloc::Global;
use std::process::Abort;
use std::test::Fail;
use test_fixtures::{holds, same};
use text_entities::write_mib;
use text_explanations::{Incoming, Traced, write_explanation, write_rules};
use text_messages::decode;
use text_writing::{DecodeFault, TextFault};

/// What is written of entities without an instance.
const NO_INSTANCE: &str = "ONU data (2) 0x0000\n  MIB data sync: 0\n";

/// What is written of port 5 then, which has no table, and of a frame that comes in there and is cut within a tag.
const NO_RULES: &str = "table: none is in force at port 5, tags stay as they are\n";

const CUT: [u8; 14] = [2, 0, 0, 0, 0, 1, 2, 0, 0, 0, 0, 2, 0x81, 0];

/// A text, of which a writer has room for a front.
#[derive(Clone, Copy)]
enum Text {
    Mib,
    Rules,
    Explanation,
}

/// Writes a text.
fn write(alloc: Global, mib: &Mib, text: Text, mut writer: &mut [u8]) -> Result<(), TextFault> {
    let traced = Traced { mib, accepted: &[] };
    let incoming = Incoming {
        port: 5,
        bytes: &CUT,
    };
    match text {
        Text::Mib => write_mib(alloc, mib, &mut writer),
        Text::Rules => write_rules(alloc, &traced, 5, &mut writer),
        Text::Explanation => write_explanation(alloc, &traced, &incoming, false, &mut writer),
    }
}

/// Writes a text into as many bytes as a front of it has: they are filled with that.
fn write_front(rt: &impl Abort, alloc: Global, mib: &Mib, text: Text, front: &[u8]) {
    let mut bytes = [0; 60];
    let room = front.len().min(60);
    let outcome = write(alloc, mib, text, &mut bytes[..room]);
    same!(rt; outcome, Err(TextFault::Write), "{room} bytes");
    same!(rt; &bytes[..room], front);
}

/// Tries each number of bytes that is too small.
fn write_fronts(rt: &impl Abort, alloc: Global, mib: &Mib) {
    for room in 0..NO_INSTANCE.len() {
        write_front(rt, alloc, mib, Text::Mib, &NO_INSTANCE.as_bytes()[..room]);
    }
    for room in 0..NO_RULES.len() {
        let front = &NO_RULES.as_bytes()[..room];
        write_front(rt, alloc, mib, Text::Rules, front);
        write_front(rt, alloc, mib, Text::Explanation, front);
    }
}

#[test]
fn a_writer_that_is_full_ends_a_text(rt: HostRuntime) -> Result<(), Fail> {
    let mib = Mib::new(rt.alloc())?;
    write_fronts(&rt, rt.alloc(), &mib);
    Ok(())
}

/// What a line that says that no answer was wanted is decoded to.
const NO_ANSWER: &str = "no answer wanted\n";

#[test]
fn a_reader_that_fails_ends_the_decoding_behind_what_it_gave(rt: HostRuntime) {
    let mut written = Vec::new(rt.alloc());
    let mut source = Source {
        bytes: b"-\n",
        most: 2,
        fails: true,
    };
    let outcome = decode(rt.alloc(), &mut source, &mut written);
    same!(rt; outcome, Err(DecodeFault::Read));
    same!(rt; written.as_slice(), NO_ANSWER.as_bytes());
}

/// Decodes the line for a writer that has room for a front of the text.
fn decode_front(rt: &impl Abort, alloc: Global, front: &[u8]) {
    let mut bytes = [0; 20];
    let room = front.len().min(20);
    let mut writer = &mut bytes[..room];
    let mut reader = "-\n".as_bytes();
    let outcome = decode(alloc, &mut reader, &mut writer);
    same!(rt; outcome, Err(DecodeFault::Write), "{room} bytes");
    same!(rt; &bytes[..room], front);
}

#[test]
fn a_writer_that_is_full_ends_the_decoding(rt: HostRuntime) {
    for room in 0..NO_ANSWER.len() {
        decode_front(&rt, rt.alloc(), &NO_ANSWER.as_bytes()[..room]);
    }
}
