//! A script answered.
use command_words::ReplayWords;
use commands_files::{ScriptInput, open_named, open_script, report_file, report_text};
use script_replay::{ReplayFault, replay, report_replay};
use std::alloc::Global;
use std::io::{self, Read, Write};
use std::rt::Files;
use text_answers::write_answers_json;
use text_messages::find_script_mistake;
use text_writing::{Status, TextFault};

/// A reader, with all that was read of it.
#[derive(Drop)]
struct KeptReader<'r, R> {
    reader: &'r mut R,
    kept: Vec<u8>,
    /// Whether a part couldn't be kept for want of memory.
    lost: bool,
}

impl<R: Read> Read for KeptReader<'_, R> {
    fn read(&mut self, buffer: &mut [u8]) -> io::Result<usize> {
        let count = self.reader.read(buffer)?;
        let piece = buffer.get(..count).unwrap_or(&[]);
        if self.kept.extend_from_slice(piece).is_err() {
            self.lost = true;
        }
        Ok(count)
    }
}

/// Answers the script in a file, or on the input, and writes the answers to `out`, as lines or as an object each, and why not all to
/// `err`. It gives the status.
pub fn replay_script<R: Files + Alloc<A = Global>, I: Read, O: Write, E: Write>(
    rt: &R,
    words: &ReplayWords,
    input: &mut I,
    out: &mut O,
    err: &mut E,
) -> Status {
    let Some(path) = words.file else {
        return replay_read(rt.alloc(), words.json, input, out, err);
    };
    match open_named(rt, path) {
        Ok(mut file) => replay_read(rt.alloc(), words.json, &mut file, out, err),
        Err(error) => report_file(error.kind(), "read", path, err),
    }
}

/// The same of a script that is read.
fn replay_read<I: Read, O: Write, E: Write>(
    alloc: Global,
    json: bool,
    input: &mut I,
    out: &mut O,
    err: &mut E,
) -> Status {
    let mut script = match open_script(alloc, input, err) {
        Ok(script) => script,
        Err(status) => return status,
    };
    if json {
        return replay_as_json(alloc, &mut script, out, err);
    }
    let outcome = replay(alloc, &mut script, out);
    report_end(&outcome, &script, err)
}

/// Says how the replay of a script ended, if it didn't end well, and what is wrong in a bad line, and gives the status.
fn report_end<I: Read, E: Write>(
    outcome: &Result<(), ReplayFault>,
    script: &ScriptInput<'_, I>,
    err: &mut E,
) -> Status {
    let status = Status::of(report_replay(outcome, err));
    if let (Err(ReplayFault::BadLine(_)), Some(line)) = (outcome, script.bad_line()) {
        let mistake = find_script_mistake(line);
        let _ = writeln!(err, "{mistake}");
    }
    status
}

/// Writes an object for each answer. The script and its answers are held until the script ends.
fn replay_as_json<I: Read, O: Write, E: Write>(
    alloc: Global,
    script: &mut ScriptInput<'_, I>,
    out: &mut O,
    err: &mut E,
) -> Status {
    let mut answers = Vec::new(alloc);
    let mut reading = KeptReader {
        reader: script,
        kept: Vec::new(alloc),
        lost: false,
    };
    let outcome = replay(alloc, &mut reading, &mut answers);
    if reading.lost {
        return report_text(Err(TextFault::NoMemory), err);
    }
    let lines = write_answers_json(alloc, &reading.kept, &answers, out);
    let written = report_text(lines, err);
    match report_end(&outcome, &*reading.reader, err) {
        Status::Done => written,
        status => status,
    }
}
