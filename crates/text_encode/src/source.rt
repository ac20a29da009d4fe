//! The lines of a script in words.
use crate::encoding::put_line;
use crate::frame::put_front;
use crate::identifiers::Identifiers;
use crate::output::Output;
use crate::{frame_words, request_words};
use omci_msg::read;
use script_lines::{Line, MOST_SPELLED, read_line};
use std::alloc::{AllocError, Global};
use std::io::{ErrorKind, Read, Write};
use text_messages::{LineReader, find_mistake, read_script_line};
use text_writing::{DecodeFault, write_whole};

/// A line in words, and how the identifiers go on behind it.
#[derive(Drop)]
struct Said {
    words: String,
    identifiers: Identifiers,
}

/// The line of the script that a line in words makes, with the identifiers behind it, or None where it has a mistake.
fn made_of(
    alloc: Global,
    words: &str,
    identifiers: Identifiers,
) -> Result<Option<(Vec<u8>, Identifiers)>, AllocError> {
    let mut output = Output::new(alloc);
    let mut identifiers = identifiers;
    put_line(words.as_bytes(), &mut identifiers, &mut output)?;
    if output.mistakes.count() > 0 {
        return Ok(None);
    }
    Ok(Some((output.script, identifiers)))
}

/// The words, where they make this line of the script.
fn said_by(
    alloc: Global,
    words: String,
    identifiers: Identifiers,
    line: &[u8],
) -> Result<Option<Said>, AllocError> {
    match made_of(alloc, words.as_str(), identifiers)? {
        Some((made, identifiers)) if made.as_slice() == line => Ok(Some(Said {
            words,
            identifiers,
        })),
        _ => Ok(None),
    }
}

/// The line `FIRST DIGITS`, whose digits are those of the script's line.
fn in_digits(alloc: Global, first: &str, line: &[u8]) -> Result<String, AllocError> {
    let mut words = String::new(alloc);
    words.push_str(first)?;
    let digits = line.strip_prefix(b"o ").unwrap_or(line);
    let digits = digits.strip_suffix(b"\n").unwrap_or(digits);
    if let Ok(digits) = str::from_utf8(digits) {
        words.push_str(digits)?;
    }
    Ok(words)
}

/// The line of a script for a message, in lower case.
fn message_line(alloc: Global, bytes: &[u8]) -> Result<Vec<u8>, AllocError> {
    let mut output = Output::new(alloc);
    output.script.extend_from_slice(b"o ")?;
    output.put_bytes(bytes)?;
    output.end_line()?;
    Ok(output.script)
}

/// The line of a script for a frame, in lower case.
fn frame_line(alloc: Global, port: u16, bytes: &[u8]) -> Result<Vec<u8>, AllocError> {
    let mut output = Output::new(alloc);
    put_front(port, &mut output)?;
    output.put_bytes(bytes)?;
    output.end_line()?;
    Ok(output.script)
}

/// A message in words, where these give back its bytes.
fn message_in_words(
    alloc: Global,
    bytes: &[u8],
    identifiers: Identifiers,
    line: &[u8],
) -> Result<Option<Said>, AllocError> {
    let Ok(request) = read(bytes) else {
        return Ok(None);
    };
    let mut words = String::new(alloc);
    if !request_words::put_request(&mut words, &request, &identifiers)? {
        return Ok(None);
    }
    said_by(alloc, words, identifiers, line)
}

/// A message: in words, or as `o HEX`, or as `raw HEX`, the first that gives back its bytes.
fn said_of_message(
    alloc: Global,
    bytes: &[u8],
    identifiers: Identifiers,
) -> Result<Said, AllocError> {
    let line = message_line(alloc, bytes)?;
    if let Some(said) = message_in_words(alloc, bytes, identifiers, &line)? {
        return Ok(said);
    }
    let whole = in_digits(alloc, "o ", &line)?;
    if let Some(said) = said_by(alloc, whole, identifiers, &line)? {
        return Ok(said);
    }
    let words = in_digits(alloc, "raw ", &line)?;
    let behind = made_of(alloc, words.as_str(), identifiers)?;
    let identifiers = behind.map_or(identifiers, |made| made.1);
    Ok(Said { words, identifiers })
}

/// A frame: in words, or as `f PORT HEX` where these don't give back its bytes.
fn said_of_frame(
    alloc: Global,
    port: u16,
    bytes: &[u8],
    identifiers: Identifiers,
) -> Result<Said, AllocError> {
    let line = frame_line(alloc, port, bytes)?;
    let mut words = String::new(alloc);
    if frame_words::put_frame(&mut words, port, bytes)? {
        if let Some(said) = said_by(alloc, words, identifiers, &line)? {
            return Ok(said);
        }
    }
    let words = in_digits(alloc, "", &line)?;
    Ok(Said { words, identifiers })
}

/// Writes a line as it stands, without the CR at its end.
fn write_content<W: Write>(line: &[u8], writer: &mut W) -> Result<(), DecodeFault> {
    write_whole(writer, line.strip_suffix(b"\r").unwrap_or(line))?;
    write_whole(writer, b"\n")?;
    Ok(())
}

/// Writes an answer, which no script has, as a remark. Any other line is bad.
fn write_answer<W: Write>(number: u64, line: &[u8], writer: &mut W) -> Result<(), DecodeFault> {
    let mut buffer = [0; MOST_SPELLED];
    if read_script_line(line, &mut buffer).is_none() {
        return Err(DecodeFault::BadLine(number, find_mistake(line)));
    }
    write_whole(writer, b"# ")?;
    write_content(line, writer)
}

/// Writes the line of a number of a script in words.
fn write_line<W: Write>(
    alloc: Global,
    number: u64,
    line: &[u8],
    identifiers: &mut Identifiers,
    writer: &mut W,
) -> Result<(), DecodeFault> {
    let mut buffer = [0; MOST_SPELLED];
    let said = match read_line(line, &mut buffer) {
        None => return write_answer(number, line, writer),
        Some(Line::Nothing) => return write_content(line, writer),
        Some(Line::Message(bytes)) => said_of_message(alloc, bytes, *identifiers)?,
        Some(Line::Frame(port, bytes)) => said_of_frame(alloc, port, bytes, *identifiers)?,
    };
    *identifiers = said.identifiers;
    write_whole(writer, said.words.as_bytes())?;
    write_whole(writer, b"\n")?;
    Ok(())
}

/// Reads a script, and writes each of its lines in words that [`encode`](crate::encode) makes the same bytes of; a line that has no such words
/// as it stands, with `raw` in place of `o` where a message is neither whole nor one that is filled. Empty lines and remarks are
/// written as they are, and the answers of a dialogue as remarks.
///
/// The words of a line are written before the next line is read, unless that was read with it. They are made in memory, and a line is
/// held, but not the script. No read that fails is made again.
pub fn decode_source<R: Read, W: Write>(
    alloc: Global,
    reader: &mut R,
    writer: &mut W,
) -> Result<(), DecodeFault> {
    let mut lines = LineReader::new(alloc)?;
    let mut identifiers = Identifiers::from(1);
    for number in 1..u64::MAX {
        match lines.next_line(reader) {
            Ok(Some(line)) => write_line(alloc, number, line, &mut identifiers, writer)?,
            Ok(None) => return Ok(()),
            Err(error) if error.kind() == ErrorKind::OutOfMemory => {
                return Err(DecodeFault::NoMemory);
            }
            Err(_) => return Err(DecodeFault::Read),
        }
    }
    Ok(())
}
