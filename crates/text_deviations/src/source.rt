//! Where an event was seen, as a remark above its line says.
use crate::lines::HistoryLines;
use std::fmt;

/// Text that stands in a history. What isn't a printing character of ASCII, or one of UTF-8, is a question mark.
#[derive(Clone, Copy)]
struct PlainWords<'t>(&'t [u8]);

impl fmt::Display for PlainWords<'_> {
    fn fmt<W: fmt::Write>(&self, f: &mut fmt::Formatter<W>) -> fmt::Result {
        match str::from_utf8(self.0) {
            Ok(text) if !self.0.iter().any(|byte| byte.is_ascii_control()) => f.write_str(text),
            _ => write_ascii(f, self.0),
        }
    }
}

/// Writes the printing characters of ASCII, and a question mark for each other byte.
fn write_ascii<W: fmt::Write>(f: &mut fmt::Formatter<W>, bytes: &[u8]) -> fmt::Result {
    for byte in bytes {
        let is_shown = byte.is_ascii_graphic() || *byte == b' ';
        f.write_char(if is_shown { char::from(*byte) } else { '?' })?;
    }
    Ok(())
}

/// Where an event was seen: a record of a capture, by the capture's file, its number and its time in seconds.
#[derive(Clone, Copy)]
pub(crate) struct Source<'t> {
    file: &'t [u8],
    number: &'t [u8],
    time: &'t [u8],
}

impl fmt::Display for Source<'_> {
    fn fmt<W: fmt::Write>(&self, f: &mut fmt::Formatter<W>) -> fmt::Result {
        let (file, number) = (PlainWords(self.file), PlainWords(self.number));
        let time = PlainWords(self.time);
        write!(f, "{file} record {number}, {time} s")
    }
}

/// What stands before the last space of a text, and behind it.
fn split_last(text: &[u8]) -> Option<(&[u8], &[u8])> {
    let space = text.iter().rposition(|byte| *byte == b' ')?;
    Some((text.get(..space)?, text.get(space.checked_add(1)?..)?))
}

/// Whether a word is a decimal number: digits, and a point among them at most.
fn is_decimal(word: &[u8]) -> bool {
    !word.is_empty()
        && word
            .iter()
            .all(|byte| byte.is_ascii_digit() || *byte == b'.')
}

/// What a remark says of where an event was seen: `# FILE record N TIME s`.
fn source_in(line: &[u8]) -> Option<Source<'_>> {
    let words = line.strip_prefix(b"# ")?.strip_suffix(b" s")?;
    let (before, time) = split_last(words)?;
    let (front, number) = split_last(before)?;
    let file = front.strip_suffix(b" record")?;
    if !is_decimal(number) || !is_decimal(time) {
        return None;
    }
    Some(Source { file, number, time })
}

/// Where the event of a line was seen, where the line above it says so.
pub(crate) fn source_of<'t>(lines: &HistoryLines<'t>, line: usize) -> Option<Source<'t>> {
    source_in(lines.line(line.checked_sub(1)?)?)
}
