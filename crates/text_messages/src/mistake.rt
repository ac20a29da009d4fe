//! Why a line of a script or of a dialogue is bad.
use script_lines::{LINE_LIMIT, Line, MOST_SPELLED, read_line, read_port};
use std::fmt;
use text_writing::{Expected, Found, Mistake};

/// Why a line isn't one of a script, or of a trace that has no frames.
#[derive(Clone, Copy, Debug, PartialEq, Eq)]
pub enum ScriptMistake {
    /// No line of a script begins so.
    Mark(Found),
    /// It is a frame, and the trace has none.
    Frame,
    /// Behind its mark stands what mustn't.
    Behind(Mistake),
}

impl fmt::Display for ScriptMistake {
    fn fmt<W: fmt::Write>(&self, f: &mut fmt::Formatter<W>) -> fmt::Result {
        match self {
            ScriptMistake::Mark(found) => {
                write!(f, "column 1: found {found}, expected 'o', 'f' or '#'")
            }
            ScriptMistake::Frame => f.write_str(
                "column 1: found 'f', expected 'o' or '#', since the frames of a run are those of its capture",
            ),
            ScriptMistake::Behind(mistake) => write!(f, "{mistake}"),
        }
    }
}

/// The first mistake of a line, without its line feed, that isn't one of a script, or of a trace that has no frames.
pub fn find_script_mistake(line: &[u8]) -> ScriptMistake {
    let mut buffer = [0; MOST_SPELLED];
    if let Some(Line::Frame(_, _)) = read_line(line, &mut buffer) {
        return ScriptMistake::Frame;
    }
    match line {
        [b'o' | b'f' | b'#', ..] => ScriptMistake::Behind(find_mistake(line)),
        [first, ..] => ScriptMistake::Mark(Found::Byte(*first)),
        [] => ScriptMistake::Mark(Found::End),
    }
}

/// The first mistake of a bad line, without its line feed.
pub fn find_mistake(line: &[u8]) -> Mistake {
    let content = line.strip_suffix(b"\r").unwrap_or(line);
    let mistake = in_content(content);
    match mistake.expected {
        Expected::Limit(most) if content.len() <= most => Mistake {
            found: Found::Byte(b'\r'),
            ..mistake
        },
        _ => mistake,
    }
}

/// The first mistake of a bad line without its end.
fn in_content(content: &[u8]) -> Mistake {
    match content {
        [b'o' | b'r', b' ', ..] => in_digits(content, 2),
        [b'f' | b'g', b' ', ..] => in_numbered(content),
        [b'd' | b'm', b' ', ..] => in_number(content),
        [b'o' | b'r' | b'f' | b'g' | b'd' | b'm', ..] => mistake_at(content, 1, Expected::Space),
        [b'-', ..] => mistake_at(content, 1, Expected::End),
        [b'#', ..] => mistake_at(content, LINE_LIMIT, Expected::Limit(LINE_LIMIT)),
        _ => mistake_at(content, 0, Expected::Mark),
    }
}

/// The mistake at a place, counted from 0.
fn mistake_at(content: &[u8], place: usize, expected: Expected) -> Mistake {
    let found = match content.get(place) {
        Some(byte) => Found::Byte(*byte),
        None => Found::End,
    };
    Mistake {
        column: place.saturating_add(1),
        found,
        expected,
    }
}

/// The mistake in hexadecimal digits, which begin at a place: one that is none, an odd number of them, or too many.
fn in_digits(content: &[u8], from: usize) -> Mistake {
    let behind = content.get(from..).unwrap_or(&[]);
    match behind.iter().position(|byte| !byte.is_ascii_hexdigit()) {
        Some(place) => mistake_at(content, from.saturating_add(place), Expected::HexDigit),
        None if behind.len() % 2 == 1 => mistake_at(content, content.len(), Expected::HexDigit),
        None => mistake_at(content, LINE_LIMIT, Expected::Limit(LINE_LIMIT)),
    }
}

/// The mistake in the number of a port or a GEM port, and in the digits behind it.
fn in_numbered(content: &[u8]) -> Mistake {
    let behind = content.get(2..).unwrap_or(&[]);
    let len = behind
        .iter()
        .position(|byte| !byte.is_ascii_digit())
        .unwrap_or(behind.len());
    if len == 0 {
        return mistake_at(content, 2, Expected::Digit);
    }
    if len > 5 {
        return mistake_at(content, 7, Expected::Space);
    }
    let (number, rest) = behind.split_at(len);
    if read_port(number).is_none() {
        return mistake_at(content, 2, Expected::Port);
    }
    if !rest.starts_with(b" ") {
        return mistake_at(content, 2 + len, Expected::Space);
    }
    in_digits(content, 3 + len)
}

/// The mistake in a number of one digit.
fn in_number(content: &[u8]) -> Mistake {
    match content.get(2) {
        Some(digit) if digit.is_ascii_digit() => mistake_at(content, 3, Expected::End),
        _ => mistake_at(content, 2, Expected::Digit),
    }
}
