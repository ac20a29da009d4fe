//! The messages of a migration.
use crate::saying::{line_of, words_of};
use omci_msg::Request;
use std::alloc::{AllocError, Global};
use std::io::Write;
use text_entities::{FORMAT, HexWords, JsonText, put_number, put_text, put_words};
use text_writing::{TextFault, write_whole};

/// The messages of a migration, in order; and of each whether two mappers, or two tables, name one port behind it, and neither before nor after
/// all of them.
#[derive(Clone, Copy)]
pub struct Migration<'a> {
    pub requests: &'a [Request],
    pub ties: &'a [bool],
}

/// How many lines a message has: a remark, and its own.
const LINES: u64 = 2;

impl Migration<'_> {
    /// Whether two name one port behind the message at a place.
    fn has_tie(&self, place: usize) -> bool {
        self.ties.get(place).copied().unwrap_or(false)
    }

    /// The line of the message that ends what begins with the message at a place: that two name one port. None where nothing begins with it.
    fn tied_until(&self, place: usize) -> Option<u64> {
        let was_tied = place.checked_sub(1).is_some_and(|last| self.has_tie(last));
        if was_tied || !self.has_tie(place) {
            return None;
        }
        let mut line = 0u64;
        let mut ended = None;
        for each in 0..self.requests.len() {
            line = line.saturating_add(LINES);
            if each > place && ended.is_none() && !self.has_tie(each) {
                ended = Some(line);
            }
        }
        ended
    }
}

/// The line of a message with a remark above it.
fn message_lines(
    alloc: Global,
    request: &Request,
    words: &str,
    tied_until: Option<u64>,
) -> Result<String, AllocError> {
    let line = line_of(alloc, request)?;
    match tied_until {
        Some(until) => format!(in alloc; "# {words} # two at one port until line {until}\n{line}"),
        None => format!(in alloc; "# {words}\n{line}"),
    }
}

/// Writes a message as an object: `message`, its bytes; `words`; and `until`, the place of the message, from 1, up to which two name one port, where that begins with
/// it.
fn write_object<W: Write>(
    alloc: Global,
    json: &mut JsonText,
    request: &Request,
    words: &str,
    tied_until: Option<u64>,
    writer: &mut W,
) -> Result<(), TextFault> {
    let mut object = json.object()?;
    let bytes = omci_msg::write_request(request);
    put_words(alloc, &mut object, "message", &HexWords(&bytes))?;
    put_text(&mut object, "words", words)?;
    if let Some(until) = tied_until {
        put_number(&mut object, "until", until.checked_div(LINES).unwrap_or(0))?;
    }
    json.write(writer, object)
}

/// Writes the messages of a migration: as lines of a script, each below a remark in the words of `encode`, or as JSON (RFC 8259). They are held.
pub fn write_migration<W: Write>(
    alloc: Global,
    migration: &Migration<'_>,
    is_json: bool,
    writer: &mut W,
) -> Result<(), TextFault> {
    let words = words_of(alloc, migration.requests)?;
    let mut lines = words.as_slice().split(|byte| *byte == b'\n');
    let mut json = JsonText::new(alloc);
    if is_json {
        write_whole(writer, FORMAT.as_bytes())?;
        json.begin(writer, "\"messages\":")?;
    }
    for (place, request) in migration.requests.iter().enumerate() {
        let said = lines
            .next()
            .and_then(|line| str::from_utf8(line).ok())
            .unwrap_or("");
        let tied_until = migration.tied_until(place);
        if is_json {
            write_object(alloc, &mut json, request, said, tied_until, writer)?;
        } else {
            let text = message_lines(alloc, request, said, tied_until)?;
            write_whole(writer, text.as_bytes())?;
        }
    }
    if is_json {
        json.end(writer, "}")?;
    }
    Ok(())
}
