//! A script or a dialogue as text.
use crate::frame::put_frame;
use crate::line::{ScriptLine, read_script_line};
use crate::lines::LineReader;
use crate::mistake::find_mistake;
use crate::reply::put_reply;
use crate::request::put_request;
use crate::table_parts::TableParts;
use frame_meaning::Reason;
use omci_msg::{MsgFault, read, read_reply};
use script_lines::MOST_SPELLED;
use std::alloc::{AllocError, Global};
use std::io::{self, ErrorKind, Read, Write};
use text_entities::HexWords;
use text_writing::{DecodeFault, write_whole};

/// Reads a script or a dialogue, and writes a text for each line: one line, and below it indented ones. A line that begins with
/// `#` and an empty one are written as they are. A line `o HEX` is a message; with a fault it is shown by that. A line `f PORT
/// HEX` is a frame, shown as it is read. The lines of answers, as a replay writes them, are `r HEX`, `g GEM HEX`, `d N`, `m N`
/// and `-`. Any other line is bad: it ends the decoding.
///
/// The text of a line is written before the next line is read, unless that was read with it. It is made in memory, and a line is
/// held, but not the script. No read that fails is made again.
pub fn decode<R: Read, W: Write>(
    alloc: Global,
    reader: &mut R,
    writer: &mut W,
) -> Result<(), DecodeFault> {
    let mut lines = LineReader::new(alloc)?;
    let mut parts = TableParts::new();
    for number in 1..u64::MAX {
        match lines.next_line(reader) {
            Ok(Some(line)) => decode_line(alloc, number, line, &mut parts, writer)?,
            Ok(None) => return Ok(()),
            Err(error) => return Err(read_fault(&error)),
        }
    }
    Ok(())
}

/// Why a read failed.
pub(crate) fn read_fault(error: &io::Error) -> DecodeFault {
    match error.kind() {
        ErrorKind::OutOfMemory => DecodeFault::NoMemory,
        _ => DecodeFault::Read,
    }
}

/// Writes the text of the line of a number.
fn decode_line<W: Write>(
    alloc: Global,
    number: u64,
    line: &[u8],
    parts: &mut TableParts,
    writer: &mut W,
) -> Result<(), DecodeFault> {
    let mut buffer = [0; MOST_SPELLED];
    match read_script_line(line, &mut buffer) {
        Some(read) => write_line(alloc, line, &read, parts, writer),
        None => Err(DecodeFault::BadLine(number, find_mistake(line))),
    }
}

/// Writes the text of a line.
fn write_line<W: Write>(
    alloc: Global,
    line: &[u8],
    read: &ScriptLine<'_>,
    parts: &mut TableParts,
    writer: &mut W,
) -> Result<(), DecodeFault> {
    if matches!(read, ScriptLine::Nothing) {
        write_whole(writer, line)?;
        write_whole(writer, b"\n")?;
        return Ok(());
    }
    let mut text = String::new(alloc);
    put_line(&mut text, read, parts)?;
    write_whole(writer, text.as_bytes())?;
    Ok(())
}

/// Puts the text of a line.
fn put_line(
    text: &mut String,
    line: &ScriptLine<'_>,
    parts: &mut TableParts,
) -> Result<(), AllocError> {
    match line {
        ScriptLine::Message(bytes) => put_message(text, bytes, parts),
        ScriptLine::Reply(bytes) => put_answer(text, bytes, parts),
        ScriptLine::Frame(port, bytes) => {
            write!(text, "frame at port {port}")?;
            put_frame(text, bytes)
        }
        ScriptLine::Leaving(gem, bytes) => {
            write!(text, "leaves by GEM port {gem}")?;
            put_frame(text, bytes)
        }
        ScriptLine::Dropped(number) => put_drop(text, *number),
        ScriptLine::Fault(number) => put_fault_number(text, *number),
        ScriptLine::NoAnswer => text.push_str("no answer wanted\n"),
        ScriptLine::Nothing => text.push_str("\n"),
    }
}

/// Puts a message, or its fault.
fn put_message(text: &mut String, bytes: &[u8], parts: &mut TableParts) -> Result<(), AllocError> {
    match read(bytes) {
        Ok(request) => {
            parts.ask(&request);
            put_request(text, &request)
        }
        Err(fault) => put_fault(text, "message", bytes, fault),
    }
}

/// Puts a reply, and the entries of a table that it completes, or why it is none.
fn put_answer(text: &mut String, bytes: &[u8], parts: &mut TableParts) -> Result<(), AllocError> {
    match read_reply(bytes) {
        Ok(reply) => {
            put_reply(text, &reply)?;
            parts.follow(text, &reply)
        }
        Err(fault) => put_fault(text, "reply", bytes, fault),
    }
}

/// Puts the fault of bytes, and the bytes.
fn put_fault(
    text: &mut String,
    what: &str,
    bytes: &[u8],
    fault: MsgFault,
) -> Result<(), AllocError> {
    let number = fault.code();
    let bytes = HexWords(bytes);
    writeln!(
        text,
        "{what} with fault {number}: {fault}\n  bytes: {bytes}"
    )
}

/// Puts why a frame is dropped.
fn put_drop(text: &mut String, number: u8) -> Result<(), AllocError> {
    match Reason::of(number) {
        Some(reason) => writeln!(text, "dropped, reason {number}: {reason}"),
        None => writeln!(text, "dropped, reason {number}, which no reason has"),
    }
}

/// Puts what fault a message had.
fn put_fault_number(text: &mut String, number: u8) -> Result<(), AllocError> {
    match MsgFault::words_of(number) {
        Some(words) => writeln!(text, "message with fault {number}: {words}"),
        None => writeln!(text, "message with fault {number}, which no fault has"),
    }
}
