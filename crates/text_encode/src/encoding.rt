//! A script of a text in words.
use crate::fault::EncodeFault;
use crate::frame::put_frame;
use crate::hexadecimal::{put_frame_bytes, put_message};
use crate::identifiers::Identifiers;
use crate::message::read_asked;
use crate::output::Output;
use crate::statement::Statement;
use omci_msg::{Request, write_request};
use script_lines::first_line;
use std::alloc::{AllocError, Global};
use std::io::{ErrorKind, Read, Write};
use text_words::{Word, Words, without_mark};
use text_writing::write_whole;

/// The remark in a line without words, from its `#` on; nothing where there is none.
fn remark_in(line: &[u8]) -> &[u8] {
    match line.iter().position(|byte| *byte == b'#') {
        Some(place) => line.split_at(place).1,
        None => &[],
    }
}

/// Puts the line of a message in words.
fn put_asked(
    first: Word<'_>,
    statement: Statement,
    words: Words<'_>,
    identifiers: &mut Identifiers,
    output: &mut Output,
) -> Result<(), AllocError> {
    let Some(asked) = read_asked(first, statement, words, &mut output.mistakes)? else {
        return Ok(());
    };
    let contents = asked.contents;
    let request = Request {
        tci: identifiers.take(asked.header.identifier),
        action: asked.action,
        wants_answer: !asked.header.quiet,
        class: asked.entity.class,
        instance: asked.entity.instance,
        contents,
    };
    output.script.extend_from_slice(b"o ")?;
    output.put_bytes(&write_request(&request))
}

/// Puts the line of the script that a line in words asks for.
fn put_statement(
    first: Word<'_>,
    words: Words<'_>,
    identifiers: &mut Identifiers,
    output: &mut Output,
) -> Result<(), AllocError> {
    let Some(statement) = output.mistakes.take(Statement::of(first))? else {
        return Ok(());
    };
    match statement {
        Statement::Frame => put_frame(words, output),
        Statement::FrameBytes => put_frame_bytes(words, output),
        Statement::Message => put_message(first, false, words, identifiers, output),
        Statement::Raw => put_message(first, true, words, identifiers, output),
        _ => put_asked(first, statement, words, identifiers, output),
    }
}

/// Puts the line of the script for a line in words, and its mistakes.
pub(crate) fn put_line(
    line: &[u8],
    identifiers: &mut Identifiers,
    output: &mut Output,
) -> Result<(), AllocError> {
    let content = line.strip_suffix(b"\r").unwrap_or(line);
    let mut words = Words::of(content);
    match words.next() {
        Some(first) => put_statement(first, words, identifiers, output)?,
        None => output.script.extend_from_slice(remark_in(content))?,
    }
    output.end_line()
}

/// The script of a text in words, with the mistakes in it.
fn encoded(alloc: Global, text: &[u8], first_identifier: u16) -> Result<Output, AllocError> {
    let mut output = Output::new(alloc);
    let mut identifiers = Identifiers::from(first_identifier);
    let mut rest = text;
    while !rest.is_empty() {
        let (line, behind) = first_line(rest);
        put_line(line, &mut identifiers, &mut output)?;
        rest = behind;
    }
    Ok(output)
}

/// Reads a text in words, and writes the script that it asks for: each line of the text is one line of the script. The identifiers
/// of its messages count from `first_identifier`. Where the text has mistakes, all of them are written to `mistakes`, a line each, and
/// of the script nothing is written. A byte order mark in front of the text is passed over.
///
/// All of the input is read before the first write.
pub fn encode<R: Read, W: Write, M: Write>(
    alloc: Global,
    first_identifier: u16,
    reader: &mut R,
    writer: &mut W,
    mistakes: &mut M,
) -> Result<(), EncodeFault> {
    let mut text = Vec::new(alloc);
    match reader.read_to_end(&mut text) {
        Ok(_) => {}
        Err(error) if error.kind() == ErrorKind::OutOfMemory => return Err(EncodeFault::NoMemory),
        Err(_) => return Err(EncodeFault::Read),
    }
    let output = encoded(alloc, without_mark(&text), first_identifier)?;
    let count = output.mistakes.count();
    if count > 0 {
        let _ = write_whole(mistakes, output.mistakes.text().as_bytes());
        return Err(EncodeFault::Mistakes(count));
    }
    write_whole(writer, &output.script)?;
    Ok(())
}
