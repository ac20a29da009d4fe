//! The lines of a run as an object.
use frame_meaning::Reason;
use json::Writer;
use std::alloc::{AllocError, Global};
use std::io::Write;
use std::str;
use text_entities::{put_number, put_words};
use text_writing::{TextFault, write_whole};

/// The number that stands at a place among the words of a line, from 0.
fn number_at(line: &str, place: usize) -> u64 {
    let word = line.split(' ').nth(place).unwrap_or("");
    word.parse::<u64>().unwrap_or(0)
}

/// The reason of a number, if one has it.
fn reason_of(number: u64) -> Option<Reason> {
    Reason::of(u8::try_from(number).ok()?)
}

/// Puts a member for each line that is a name and a number.
fn put_totals(object: &mut Writer, lines: &str, name: &str) -> Result<(), AllocError> {
    for line in lines.lines() {
        if line.split(' ').next() == Some(name) {
            put_number(object, name, number_at(line, 1))?;
        }
    }
    Ok(())
}

/// Puts the array of the batches.
fn put_batches(object: &mut Writer, lines: &str) -> Result<(), AllocError> {
    object.key("batches")?;
    object.begin_array()?;
    for line in lines.lines() {
        if line.starts_with("batch ") {
            object.begin_object()?;
            put_number(object, "batch", number_at(line, 1))?;
            put_number(object, "version", number_at(line, 3))?;
            put_number(object, "frames", number_at(line, 5))?;
            object.end_object()?;
        }
    }
    object.end_array()
}

/// Puts the array of the reasons for which frames were dropped.
fn put_drops(alloc: Global, object: &mut Writer, lines: &str) -> Result<(), AllocError> {
    object.key("drops")?;
    object.begin_array()?;
    for line in lines.lines() {
        if line.starts_with("drop ") {
            let number = number_at(line, 1);
            object.begin_object()?;
            put_number(object, "reason", number)?;
            if let Some(reason) = reason_of(number) {
                put_words(alloc, object, "words", &reason)?;
            }
            put_number(object, "frames", number_at(line, 2))?;
            object.end_object()?;
        }
    }
    object.end_array()
}

/// Puts the array of the GEM ports by which frames left.
fn put_gems(object: &mut Writer, lines: &str) -> Result<(), AllocError> {
    object.key("gems")?;
    object.begin_array()?;
    for line in lines.lines() {
        if line.starts_with("gem ") {
            object.begin_object()?;
            put_number(object, "gem", number_at(line, 1))?;
            put_number(object, "frames", number_at(line, 2))?;
            object.end_object()?;
        }
    }
    object.end_array()
}

/// The object for the lines of a run.
fn object_of(alloc: Global, lines: &str) -> Result<Vec<u8>, AllocError> {
    let mut object = Writer::new(Vec::new(alloc));
    object.begin_object()?;
    put_number(&mut object, "format", 1)?;
    put_totals(&mut object, lines, "accepted")?;
    put_batches(&mut object, lines)?;
    put_totals(&mut object, lines, "frames")?;
    put_totals(&mut object, lines, "bytes")?;
    put_drops(alloc, &mut object, lines)?;
    put_gems(&mut object, lines)?;
    object.end_object()?;
    Ok(object.into_inner())
}

/// Writes the lines of a run as one object of JSON (RFC 8259) on a line: how many messages were `accepted`, an object for each of the
/// `batches`, how many `frames` there were and the `bytes` of those that left, and the arrays `drops` and `gems`, with an object for
/// each reason and each GEM port. Lines of another kind are passed over.
pub fn write_run_json<O: Write>(alloc: Global, lines: &[u8], out: &mut O) -> Result<(), TextFault> {
    let object = object_of(alloc, str::from_utf8(lines).unwrap_or(""))?;
    write_whole(out, &object)?;
    write_whole(out, b"\n")?;
    Ok(())
}
