//! The script that a unit had carried out before a history began.
use bench_start::read_start;
use command_words::JudgeWords;
use commands_files::{line_of, read_whole, report_unread, script_of, without_memory};
use omci_msg::Request;
use script_trace::ScriptFault;
use std::alloc::Global;
use std::fs::File;
use std::io::Write;
use std::rt::Files;
use text_messages::find_script_mistake;
use text_writing::Status;

/// The requests of the script that the words name, none where they name none; or the status where they can't be had. Why is written to
/// `err`.
pub(crate) fn start_of<R: Files<File = File> + Alloc<A = Global>, E: Write>(
    rt: &R,
    words: &JudgeWords,
    err: &mut E,
) -> Result<Vec<Request>, Status> {
    let alloc = rt.alloc();
    let Some(name) = words.start else {
        return Ok(Vec::new(alloc));
    };
    let text = match read_whole(rt, name) {
        Ok(text) => text,
        Err(error) => return Err(report_unread(&error, b"cannot read start: ", name, err)),
    };
    let script = script_of(alloc, text, err)?;
    match read_start(alloc, &script) {
        Ok(requests) => Ok(requests),
        Err(ScriptFault::NoMemory) => Err(without_memory(err)),
        Err(ScriptFault::BadLine(line)) => {
            let mistake = find_script_mistake(line_of(&script, line));
            let _ = writeln!(err, "start line {line} is bad\n{mistake}");
            Err(Status::Bad)
        }
    }
}
