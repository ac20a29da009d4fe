//! Scripts, traces and histories as they are written in files: with a byte order mark, or in words.
use crate::reports::without_memory;
use script_lines::first_line;
use std::alloc::Global;
use std::io::Write;
use text_encode::{EncodeFault, encode, is_in_words, without_mark};
use text_writing::{LookFault, Status, report_look};

/// The line of a number, from 1, without its line feed; nothing where a text has fewer.
pub fn line_of(text: &[u8], number: u64) -> &[u8] {
    let mut rest = without_mark(text);
    for _ in 1..number {
        if rest.is_empty() {
            break;
        }
        rest = first_line(rest).1;
    }
    if rest.is_empty() {
        return rest;
    }
    first_line(rest).0
}

/// The lines of a text up to that of a number, from 1; all where it has fewer.
pub fn lines_until(text: &[u8], number: u64) -> &[u8] {
    let mut rest = text;
    for _ in 0..number {
        if rest.is_empty() {
            break;
        }
        rest = first_line(rest).1;
    }
    &text[..text.len().saturating_sub(rest.len())]
}

/// Drops the byte order mark in front of a text. Without one nothing is copied.
pub(crate) fn drop_mark(text: &mut Vec<u8>) {
    let len = text.len();
    let left = without_mark(text).len().min(len);
    if left < len {
        text.copy_within(len - left..len, 0);
        text.truncate(left);
    }
}

/// The script that a text in words asks for, whose mistakes are written to `err`; any other text as it is, but for a byte order mark.
pub fn script_of<E: Write>(
    alloc: Global,
    mut text: Vec<u8>,
    err: &mut E,
) -> Result<Vec<u8>, Status> {
    if !is_in_words(&text) {
        drop_mark(&mut text);
        return Ok(text);
    }
    let mut script = Vec::new(alloc);
    let mut words: &[u8] = &text;
    match encode(alloc, 1, &mut words, &mut script, err) {
        Ok(()) => Ok(script),
        Err(EncodeFault::Mistakes(_)) => Err(Status::Bad),
        Err(EncodeFault::NoMemory) => Err(without_memory(err)),
        Err(EncodeFault::Read) => Err(report_look(&Err(LookFault::Read), err)),
        Err(EncodeFault::Write) => Err(report_look(&Err(LookFault::Write), err)),
    }
}
