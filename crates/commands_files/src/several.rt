//! Several files in one call: what is written of each names it, and the status is the worst.
use crate::files::refuse_twice;
use crate::fronted::{Fronted, Marked};
use crate::outputs::Output;
use crate::reports::without_memory;
use json::Writer;
use std::alloc::{AllocError, Global};
use std::io::Write;
use text_writing::{LookFault, Status, report_look};

/// What a command does with each of its files.
pub trait OverFile {
    /// Writes what it has to say of a file to `out`, and why not all to `err`. It gives the status.
    fn of_file<O: Write, E: Write>(&self, name: &str, out: &mut O, err: &mut E) -> Status;
}

/// How bad a status is: the more work is left undone, the worse. Where nobody reads, nothing else can be done; a file at which the system
/// is at fault isn't read; of one that is bad a part is; and where something is found, or nothing was decided, all is written.
fn badness(status: Status) -> u8 {
    match status {
        Status::Done => 0,
        Status::Undecided => 1,
        Status::Found => 2,
        Status::Bad => 3,
        Status::Failed => 4,
        Status::Unread => 5,
    }
}

/// The worse of two statuses.
fn worse_of(one: Status, other: Status) -> Status {
    if badness(other) > badness(one) {
        other
    } else {
        one
    }
}

/// A name between two texts, with each control character as a question mark.
fn named(alloc: Global, before: &[u8], name: &str, behind: &[u8]) -> Result<Vec<u8>, AllocError> {
    let mut text = Vec::new(alloc);
    text.extend_from_slice(before)?;
    for byte in name.as_bytes() {
        let shown = if byte.is_ascii_control() { b'?' } else { *byte };
        text.push(shown)?;
    }
    text.extend_from_slice(behind)?;
    Ok(text)
}

/// A name as it is shown in a line: with each control character as a question mark.
pub fn shown_name(alloc: Global, name: &str) -> Result<Vec<u8>, AllocError> {
    named(alloc, b"", name, b"")
}

/// The front of an object whose first key is the file's.
fn front_of_object(alloc: Global, name: &str) -> Result<Vec<u8>, AllocError> {
    let mut object = Writer::new(Vec::new(alloc));
    object.begin_object()?;
    object.key("file")?;
    object.string(name)?;
    let mut front = object.into_inner();
    front.push(b',')?;
    Ok(front)
}

/// What names a file in front of a line about it.
pub(crate) fn line_front(alloc: Global, name: &str) -> Result<Vec<u8>, AllocError> {
    named(alloc, b"", name, b": ")
}

/// What names a file in front of what is written of it.
fn front_of(alloc: Global, name: &str, marked: Marked) -> Result<Vec<u8>, AllocError> {
    match marked {
        Marked::Lines => line_front(alloc, name),
        Marked::Remark => named(alloc, b"# ", name, b"\n"),
        Marked::Objects | Marked::Object => front_of_object(alloc, name),
    }
}

/// Does what a command does with one of several files, and gives the status.
fn of_marked<T: OverFile, O: Write, E: Write>(
    alloc: Global,
    work: &T,
    name: &str,
    marked: Marked,
    out: &mut O,
    err: &mut E,
) -> Status {
    let (front, said) = (
        front_of(alloc, name, marked),
        front_of(alloc, name, Marked::Lines),
    );
    let (Ok(front), Ok(said)) = (front, said) else {
        return without_memory(err);
    };
    let mut out = Fronted::new(out, &front, marked);
    let mut err = Fronted::new(err, &said, Marked::Lines);
    let status = work.of_file(name, &mut out, &mut err);
    match out.end_line() {
        Err(_) if status != Status::Failed => report_look(&Err(LookFault::Write), &mut err),
        _ => status,
    }
}

/// Sends on what is gathered, unless a write has failed before. It gives the status.
fn send<W: Write + Drop, E: Write>(output: &mut Output<'_, W>, err: &mut E) -> Status {
    if output.has_failed() {
        return Status::Failed;
    }
    let outcome = output.flush().map_err(|_| LookFault::Write);
    report_look(&outcome, err)
}

/// Does what a command does with each of its files, in order, and gives the worst status. What is written of one file alone is as it is
/// without a name. A file that can't be had stops no other, and a write that fails all.
pub fn over_files<T: OverFile, O: Write, E: Write>(
    alloc: Global,
    work: &T,
    files: &[&str],
    marked: Marked,
    out: &mut O,
    err: &mut E,
) -> Status {
    if let Err(status) = refuse_twice(files, err) {
        return status;
    }
    if let [file] = files {
        return work.of_file(file, out, err);
    }
    let Ok(mut output) = Output::direct(alloc, "standard output", &mut *out) else {
        return without_memory(err);
    };
    let mut status = Status::Done;
    for file in files {
        let ended = of_marked(alloc, work, file, marked, &mut output, err);
        status = worse_of(status, ended);
        if output.has_failed() {
            break;
        }
    }
    worse_of(status, send(&mut output, err))
}
