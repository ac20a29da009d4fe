//! Scripts in words.
use command_words::EncodeWords;
use commands_files::{open_named, report_file};
use std::alloc::Global;
use std::io::{Read, Write};
use std::rt::Files;
use text_encode::{EncodeFault, encode};
use text_writing::{LookFault, Status, report_look};

/// Says how a text in words ended, and gives the status. Its mistakes are written already.
fn report_encoding<E: Write>(outcome: Result<(), EncodeFault>, err: &mut E) -> Status {
    let fault = match outcome {
        Ok(()) => return Status::Done,
        Err(EncodeFault::Mistakes(_)) => return Status::Bad,
        Err(EncodeFault::Read) => LookFault::Read,
        Err(EncodeFault::Write) => LookFault::Write,
        Err(EncodeFault::NoMemory) => LookFault::NoMemory,
    };
    report_look(&Err(fault), err)
}

/// Writes the script of a text in words to `out`, or the text's mistakes to `err`. It gives the status.
pub fn encode_text<R: Files + Alloc<A = Global>, I: Read, O: Write, E: Write>(
    rt: &R,
    words: &EncodeWords,
    input: &mut I,
    out: &mut O,
    err: &mut E,
) -> Status {
    let (alloc, first) = (rt.alloc(), words.identifier.unwrap_or(1));
    let Some(path) = words.file else {
        let outcome = encode(alloc, first, input, out, err);
        return report_encoding(outcome, err);
    };
    let mut file = match open_named(rt, path) {
        Ok(file) => file,
        Err(error) => return report_file(error.kind(), "read", path, err),
    };
    let outcome = encode(alloc, first, &mut file, out, err);
    report_encoding(outcome, err)
}
