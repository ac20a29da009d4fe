//! What the lines of a script mean.
use command_words::DecodeWords;
use commands_files::{
    Marked, OverFile, open_named, open_script, over_files, report_decoding, report_file,
};
use std::alloc::Global;
use std::io::{Read, Write};
use std::rt::Files;
use text_encode::decode_source;
use text_messages::{decode, decode_json};
use text_writing::Status;

/// What is said of two options that don't go together, in the form of the other words that are refused.
const TOGETHER: &[u8] =
    b"error: the argument '--source' cannot be used with '--json'\n\nFor more information, try '--help'.\n";

/// What `decode` does with each of its files.
#[derive(Drop)]
struct Decoding<'w, R> {
    rt: &'w R,
    words: &'w DecodeWords<'w>,
}

impl<R: Files + Alloc<A = Global>> OverFile for Decoding<'_, R> {
    fn of_file<O: Write, E: Write>(&self, name: &str, out: &mut O, err: &mut E) -> Status {
        match open_named(self.rt, name) {
            Ok(mut file) => decode_read(self.rt.alloc(), self.words, &mut file, out, err),
            Err(error) => report_file(error.kind(), "read", name, err),
        }
    }
}

/// Where the name of each of several files stands.
fn marked(words: &DecodeWords<'_>) -> Marked {
    if words.source {
        Marked::Remark
    } else if words.json {
        Marked::Objects
    } else {
        Marked::Lines
    }
}

/// Writes what each line of the scripts in files, or of one on the input, means to `out`, as text, as JSON or in the words that `encode`
/// reads, and why not all of them to `err`. It gives the status.
pub fn decode_script<R: Files + Alloc<A = Global>, I: Read, O: Write, E: Write>(
    rt: &R,
    words: &DecodeWords<'_>,
    input: &mut I,
    out: &mut O,
    err: &mut E,
) -> Status {
    if words.source && words.json {
        let _ = err.write_all(TOGETHER);
        return Status::Failed;
    }
    if words.files.is_empty() {
        return decode_read(rt.alloc(), words, input, out, err);
    }
    let work = Decoding { rt, words };
    over_files(rt.alloc(), &work, &words.files, marked(words), out, err)
}

/// The same of a script that is read.
fn decode_read<I: Read, O: Write, E: Write>(
    alloc: Global,
    words: &DecodeWords<'_>,
    input: &mut I,
    out: &mut O,
    err: &mut E,
) -> Status {
    let mut script = match open_script(alloc, input, err) {
        Ok(script) => script,
        Err(status) => return status,
    };
    let outcome = if words.source {
        decode_source(alloc, &mut script, out)
    } else if words.json {
        decode_json(alloc, &mut script, out)
    } else {
        decode(alloc, &mut script, out)
    };
    report_decoding(outcome, err)
}
