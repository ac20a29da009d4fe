//! A script or a dialogue as lines of JSON.
use crate::decoding::read_fault;
use crate::frame_json::put_view_json;
use crate::line::{ScriptLine, read_script_line};
use crate::lines::LineReader;
use crate::messages_json::{put_reply_json, put_request_json};
use crate::mistake::find_mistake;
use frame_meaning::Reason;
use json::Writer;
use omci_msg::{MsgFault, read, read_reply};
use script_lines::MOST_SPELLED;
use std::alloc::{AllocError, Global};
use std::io::{Read, Write};
use tag_view::{CUSTOMER_TPID, view};
use text_entities::{HexWords, put_number, put_text, put_words};
use text_writing::{DecodeFault, write_whole};

/// Reads a script or a dialogue as [`decode`](crate::decode) does, and writes an object of JSON (RFC 8259) for each line, on a line of its
/// own: `format`, 1; `line`, its number, from 1; `kind`, which is `message`, `frame`, `reply`, `leaving`, `dropped`, `fault`, `no_answer` or
/// `remark`; and what it says. Of a remark that is text that is `text`.
pub fn decode_json<R: Read, W: Write>(
    alloc: Global,
    reader: &mut R,
    writer: &mut W,
) -> Result<(), DecodeFault> {
    let mut lines = LineReader::new(alloc)?;
    for number in 1..u64::MAX {
        match lines.next_line(reader) {
            Ok(Some(line)) => decode_line(alloc, number, line, writer)?,
            Ok(None) => return Ok(()),
            Err(error) => return Err(read_fault(&error)),
        }
    }
    Ok(())
}

/// Writes the object of the line of a number.
fn decode_line<W: Write>(
    alloc: Global,
    number: u64,
    line: &[u8],
    writer: &mut W,
) -> Result<(), DecodeFault> {
    let mut buffer = [0; MOST_SPELLED];
    let Some(read) = read_script_line(line, &mut buffer) else {
        return Err(DecodeFault::BadLine(number, find_mistake(line)));
    };
    let mut object = Writer::new(Vec::new(alloc));
    object.begin_object()?;
    put_number(&mut object, "format", 1)?;
    put_number(&mut object, "line", number)?;
    put_line_json(alloc, &mut object, &read)?;
    put_remark(&mut object, line)?;
    object.end_object()?;
    write_whole(writer, &object.into_inner())?;
    write_whole(writer, b"\n")?;
    Ok(())
}

/// Puts a remark, if the line is one and is text.
fn put_remark(object: &mut Writer, line: &[u8]) -> Result<(), AllocError> {
    let content = line.strip_suffix(b"\r").unwrap_or(line);
    match str::from_utf8(content) {
        Ok(remark) if remark.starts_with('#') => put_text(object, "text", remark),
        _ => Ok(()),
    }
}

/// Puts what a line says: `kind`, and what [`decode_json`] writes of a line of that kind.
pub fn put_line_json(
    alloc: Global,
    object: &mut Writer,
    line: &ScriptLine<'_>,
) -> Result<(), AllocError> {
    match line {
        ScriptLine::Message(bytes) => put_message(alloc, object, bytes),
        ScriptLine::Reply(bytes) => put_answer(alloc, object, bytes),
        ScriptLine::Frame(port, bytes) => {
            put_text(object, "kind", "frame")?;
            put_number(object, "port", u64::from(*port))?;
            put_frame(alloc, object, bytes)
        }
        ScriptLine::Leaving(gem, bytes) => {
            put_text(object, "kind", "leaving")?;
            put_number(object, "gem", u64::from(*gem))?;
            put_frame(alloc, object, bytes)
        }
        ScriptLine::Dropped(number) => put_drop(alloc, object, *number),
        ScriptLine::Fault(number) => {
            put_text(object, "kind", "fault")?;
            put_number(object, "fault", u64::from(*number))?;
            put_text(
                object,
                "words",
                MsgFault::words_of(*number).unwrap_or("no fault has it"),
            )
        }
        ScriptLine::NoAnswer => put_text(object, "kind", "no_answer"),
        ScriptLine::Nothing => put_text(object, "kind", "remark"),
    }
}

/// Puts a message, or its fault.
fn put_message(alloc: Global, object: &mut Writer, bytes: &[u8]) -> Result<(), AllocError> {
    put_text(object, "kind", "message")?;
    put_words(alloc, object, "bytes", &HexWords(bytes))?;
    match read(bytes) {
        Ok(request) => put_request_json(alloc, object, &request),
        Err(fault) => put_fault(alloc, object, fault),
    }
}

/// Puts a reply, or why it is none.
fn put_answer(alloc: Global, object: &mut Writer, bytes: &[u8]) -> Result<(), AllocError> {
    put_text(object, "kind", "reply")?;
    put_words(alloc, object, "bytes", &HexWords(bytes))?;
    match read_reply(bytes) {
        Ok(reply) => put_reply_json(alloc, object, &reply),
        Err(fault) => put_fault(alloc, object, fault),
    }
}

/// Puts a fault of bytes.
fn put_fault(alloc: Global, object: &mut Writer, fault: MsgFault) -> Result<(), AllocError> {
    put_number(object, "fault", u64::from(fault.code()))?;
    put_words(alloc, object, "words", &fault)
}

/// Puts a frame, as it is read without a table, or why it can't be read.
fn put_frame(alloc: Global, object: &mut Writer, bytes: &[u8]) -> Result<(), AllocError> {
    put_words(alloc, object, "bytes", &HexWords(bytes))?;
    match view(bytes, CUSTOMER_TPID) {
        Ok(frame) => put_view_json(alloc, object, &frame),
        Err(fault) => {
            let reason = Reason::from(fault);
            put_number(object, "reason", u64::from(reason.code()))?;
            put_words(alloc, object, "words", &reason)
        }
    }
}

/// Puts why a frame is dropped.
fn put_drop(alloc: Global, object: &mut Writer, number: u8) -> Result<(), AllocError> {
    put_text(object, "kind", "dropped")?;
    put_number(object, "reason", u64::from(number))?;
    match Reason::of(number) {
        Some(reason) => put_words(alloc, object, "words", &reason),
        None => Ok(()),
    }
}
