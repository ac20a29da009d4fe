//! Whether a right unit may have done what a history says.
use crate::finding::{Begun, Found, find, status_of, write_found};
use crate::mistakes::find_history_mistake;
use crate::progress::Shown;
use crate::start::start_of;
use bench_judge::JudgeFault;
use command_words::JudgeWords;
use commands_files::{History, HistoryFile, read_whole, refuse_twice, report_unread};
use std::alloc::Global;
use std::fs::File;
use std::io::{self, ErrorKind, IsTerminal, Read, Write};
use std::rt::Files;
use std::thread::Threads;
use text_writing::{LookFault, Status, report_look};

/// The name of standard input.
const STANDARD_INPUT: &str = "-";

/// Why a history isn't judged.
fn judge_fault(fault: JudgeFault) -> LookFault {
    match fault {
        JudgeFault::BadLine(line) => LookFault::BadLine(line),
        JudgeFault::NoMemory => LookFault::NoMemory,
    }
}

/// All that a reader gives.
fn read_input<I: Read>(alloc: Global, input: &mut I) -> Result<Vec<u8>, LookFault> {
    let mut history = Vec::new(alloc);
    match input.read_to_end(&mut history) {
        Ok(_) => Ok(history),
        Err(error) if error.kind() == ErrorKind::OutOfMemory => Err(LookFault::NoMemory),
        Err(_) => Err(LookFault::Read),
    }
}

/// Says that a text is waited for where its name is that of standard input, and this is a terminal.
fn say_waiting<I: IsTerminal, E: Write>(name: &str, words: &[u8], input: &I, err: &mut E) {
    if name == STANDARD_INPUT && input.is_terminal() {
        let _ = err.write_all(words);
    }
}

/// The history in a file. While a large one is read, a terminal says so.
fn read_file<R: Files<File = File> + Alloc<A = Global> + Threads + Sync, E: Write + IsTerminal>(
    rt: &R,
    path: &str,
    err: &mut E,
) -> io::Result<History> {
    let mut file = HistoryFile::open(rt, path)?;
    let mut shown = Shown::new(err);
    if file.is_large() {
        shown.begin();
    }
    let history = file.read(rt);
    shown.end();
    history
}

/// The history that the words name, or the status where it can't be had; why is written to `err`.
fn history_of<
    R: Files<File = File> + Alloc<A = Global> + Threads + Sync,
    I: Read + IsTerminal,
    E: Write + IsTerminal,
>(rt: &R, file: Option<&str>, input: &mut I, err: &mut E) -> Result<History, Status> {
    let said = b"reading a history from this terminal, up to its end (Ctrl-D)\n";
    say_waiting(file.unwrap_or(STANDARD_INPUT), said, input, err);
    match file {
        Some(path) => match read_file(rt, path, err) {
            Ok(history) => Ok(history),
            Err(error) => Err(report_unread(&error, b"cannot read history\n", path, err)),
        },
        None => match read_input(rt.alloc(), input) {
            Ok(history) => Ok(History::Whole(history)),
            Err(fault) => Err(report_look(&Err(fault), err)),
        },
    }
}

/// Judges a history, and shows on `err` meanwhile how far that is, where it is a terminal and the history long.
fn judge_shown<'h, E: Write + IsTerminal>(
    alloc: Global,
    words: &JudgeWords,
    begun: &'h Begun,
    err: &mut E,
) -> Result<Found<'h>, LookFault> {
    let mut shown = Shown::new(err);
    let found = find(alloc, words, begun, &mut shown);
    shown.end();
    match found {
        Ok(found) => Ok(found),
        Err(fault) => Err(judge_fault(fault)),
    }
}

/// Judges a history, and writes what it shows to `out`. It gives the status where nothing is wrong with the call.
fn judge_text<O: Write, E: Write + IsTerminal>(
    alloc: Global,
    words: &JudgeWords,
    begun: &Begun,
    out: &mut O,
    err: &mut E,
) -> Result<Status, LookFault> {
    let found = judge_shown(alloc, words, begun, err)?;
    write_found(alloc, words, begun, &found, out)?;
    Ok(status_of(&found, words.allow_unfinished))
}

/// Says what is wrong in a bad line of a history. One that is held in pieces is read again, if it can be.
fn report_bad_line<R: Files + Alloc<A = Global>, E: Write>(
    rt: &R,
    words: &JudgeWords,
    history: &History,
    line: u64,
    err: &mut E,
) {
    let read = match (history, words.file) {
        (History::Whole(text), _) => {
            let mistake = find_history_mistake(text, line);
            let _ = writeln!(err, "{mistake}");
            return;
        }
        (History::InPieces(_), Some(path)) => read_whole(rt, path),
        (History::InPieces(_), None) => return,
    };
    if let Ok(text) = read {
        let mistake = find_history_mistake(&text, line);
        let _ = writeln!(err, "{mistake}");
    }
}

/// Refuses words by which the history and the script before it are both read from standard input, and gives the status.
fn refuse_one_input<E: Write>(words: &JudgeWords, err: &mut E) -> Result<(), Status> {
    match words.start {
        Some(start) => refuse_twice(&[start, words.file.unwrap_or(STANDARD_INPUT)], err),
        None => Ok(()),
    }
}

/// Reads a history whole, from its file or from `input`, and writes what it shows to `out`, and why nothing, or not all, to `err`. It
/// gives the status.
pub fn judge_history<
    R: Files<File = File> + Alloc<A = Global> + Threads + Sync,
    I: Read + IsTerminal,
    O: Write,
    E: Write + IsTerminal,
>(rt: &R, words: &JudgeWords, input: &mut I, out: &mut O, err: &mut E) -> Status {
    if let Err(status) = refuse_one_input(words, err) {
        return status;
    }
    let said = b"reading a script from this terminal, up to its end (Ctrl-D)\n";
    say_waiting(words.start.unwrap_or(""), said, input, err);
    let start = match start_of(rt, words, err) {
        Ok(start) => start,
        Err(status) => return status,
    };
    let history = match history_of(rt, words.file, input, err) {
        Ok(history) => history,
        Err(status) => return status,
    };
    let begun = Begun { start, history };
    match judge_text(rt.alloc(), words, &begun, out, err) {
        Ok(status) => status,
        Err(fault) => {
            let status = report_look(&Err(fault), err);
            if let LookFault::BadLine(line) = fault {
                report_bad_line(rt, words, &begun.history, line, err);
            }
            status
        }
    }
}
