//! The expectations that words name.
use commands_files::{read_whole, report_unread, without_memory};
use std::alloc::Global;
use std::io::{self, ErrorKind, Read, Write};
use std::rt::Files;
use text_expectations::{ExpectationsFault, ExpectedLine, read_expectations};
use text_writing::{LookFault, Status, report_look};

/// All that a reader gives.
fn read_input<I: Read>(alloc: Global, input: &mut I) -> io::Result<Vec<u8>> {
    let mut text = Vec::new(alloc);
    input.read_to_end(&mut text)?;
    Ok(text)
}

/// Says why a reader gave nothing, and gives the status.
fn report_input<E: Write>(error: &io::Error, err: &mut E) -> Status {
    let fault = match error.kind() {
        ErrorKind::OutOfMemory => LookFault::NoMemory,
        _ => LookFault::Read,
    };
    report_look(&Err(fault), err)
}

/// The bytes of a text of expectations, or the status where they can't be had.
fn text_of<R: Files + Alloc<A = Global>, I: Read, E: Write>(
    rt: &R,
    file: Option<&str>,
    input: &mut I,
    err: &mut E,
) -> Result<Vec<u8>, Status> {
    match file {
        None => match read_input(rt.alloc(), input) {
            Ok(text) => Ok(text),
            Err(error) => Err(report_input(&error, err)),
        },
        Some(path) => match read_whole(rt, path) {
            Ok(text) => Ok(text),
            Err(error) => Err(report_unread(&error, b"cannot read expectations\n", path, err)),
        },
    }
}

/// The expectations of a text in a file, or of standard input without one; or the status where they can't be had. Why is written to `err`: all mistakes
/// of the text, where it has some.
pub(crate) fn expectations_of<R: Files + Alloc<A = Global>, I: Read, E: Write>(
    rt: &R,
    file: Option<&str>,
    input: &mut I,
    err: &mut E,
) -> Result<Vec<ExpectedLine>, Status> {
    let text = text_of(rt, file, input, err)?;
    match read_expectations(rt.alloc(), &text) {
        Ok(lines) => Ok(lines),
        Err(ExpectationsFault::Mistakes(mistakes)) => {
            let _ = err.write_all(mistakes.text().as_bytes());
            Err(Status::Bad)
        }
        Err(ExpectationsFault::NoMemory) => Err(without_memory(err)),
    }
}
