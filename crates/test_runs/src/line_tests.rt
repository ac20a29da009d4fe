//! The lines of a reader. The dialogues (`tests/dialogues/decode.dialogues`) ask the program what it says of a bad one.

use crate::devices::Source;
use std::alloc::Global;
use std::process::Abort;
use test_fixtures::{holds, same};
use text_messages::{LineReader, find_mistake};
use text_writing::{Expected, Found, Mistake};

#[test]
fn the_first_mistake_of_a_line_is_found(rt: HostRuntime) {
    let mistake = Mistake {
        column: 5,
        found: Found::Byte(b'O'),
        expected: Expected::HexDigit,
    };
    same!(rt; find_mistake(b"o 00O1"), mistake);
}

/// Compares the next line, or that there is none.
fn line_is(rt: &impl Abort, reader: &mut LineReader, source: &mut Source<'_>, line: Option<&[u8]>) {
    match reader.next_line(source) {
        Ok(next) => same!(rt; next, line),
        Err(_) => holds!(rt; false, "no read fails"),
    }
}

/// Reads a text by pieces of a size, and compares its lines.
fn lines_are(rt: &impl Abort, alloc: Global, size: usize, text: &[u8], lines: &[&[u8]]) {
    let mut reader = LineReader::new(alloc).expect(rt, "there is memory");
    let mut source = Source {
        bytes: text,
        most: size,
        fails: false,
    };
    for line in lines {
        line_is(rt, &mut reader, &mut source, Some(*line));
    }
    line_is(rt, &mut reader, &mut source, None);
}

/// A text, and its lines.
const TEXTS: [(&[u8], &[&[u8]]); 3] = [
    (b"", &[]),
    (b"\n\na\nbcd", &[b"", b"", b"a", b"bcd"]),
    (b"one\r\ntwo\n", &[b"one\r", b"two"]),
];

#[test]
fn a_reader_is_its_lines_whatever_a_read_gives(rt: HostRuntime) {
    for size in [1, 2, 3, 100] {
        for (text, lines) in &TEXTS {
            lines_are(&rt, rt.alloc(), size, text, lines);
        }
    }
}
