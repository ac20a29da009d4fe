//! The history that captures show.
use crate::finding::find;
use crate::inputs::{Asked, names_of, read_asked, read_captures};
use crate::saying::{report_findings, report_unjudged};
use crate::seeing::{listed, see_captures};
use bench_record::{Capture, RecordSettings, Recording, record_history, write_history};
use command_words::{RecordWords, read_tpid};
use commands_files::{create_output, report_value, shown_name, without_memory};
use std::alloc::{AllocError, Global};
use std::io::{BufWriter, Write};
use std::rt::Files;
use text_writing::{LookFault, Status, report_look};

/// How many bytes of a history are gathered before the output gets them: as many as a pipe of Linux holds.
const GATHERED: usize = 1 << 16;

/// What a history is made by: the words, the names of the captures' files, and the settings.
#[derive(Clone, Copy)]
struct Job<'j, 'w, 'n, 't> {
    words: &'j RecordWords<'w>,
    names: &'n [&'w str],
    settings: RecordSettings<'t>,
}

/// The types of tags that the words name, or the status where one is none.
fn read_tpids<E: Write>(alloc: Global, texts: &[&str], err: &mut E) -> Result<Vec<u16>, Status> {
    let mut tpids = Vec::new(alloc);
    for text in texts {
        let Some(tpid) = read_tpid(text) else {
            let expected = "four hexadecimal digits";
            return Err(report_value(text, "--tpid <TPID>", expected, err));
        };
        if tpids.push(tpid).is_err() {
            return Err(without_memory(err));
        }
    }
    Ok(tpids)
}

/// The file that the words name for the history; None for standard output.
fn file_of<'a>(words: &RecordWords<'a>) -> Option<&'a str> {
    match words.out {
        Some("-") | None => None,
        Some(name) => Some(name),
    }
}

/// The names of captures as remarks have them, each without control characters.
fn shown_names(alloc: Global, names: &[&str]) -> Result<Vec<Vec<u8>>, AllocError> {
    let mut shown = Vec::with_capacity(alloc, names.len())?;
    for name in names {
        shown.push(shown_name(alloc, name)?)?;
    }
    Ok(shown)
}

/// Texts, lent.
fn lent(alloc: Global, texts: &[Vec<u8>]) -> Result<Vec<&[u8]>, AllocError> {
    let mut lent = Vec::with_capacity(alloc, texts.len())?;
    for text in texts {
        lent.push(text.as_slice())?;
    }
    Ok(lent)
}

/// The names of captures, where remarks are wanted.
fn if_wanted<'s>(is_wanted: bool, names: &'s [&'s [u8]]) -> Option<&'s [&'s [u8]]> {
    if is_wanted { Some(names) } else { None }
}

/// Writes a history to a file, and gives the status where not all of it is written. The file gets its name at the end.
fn write_file<R: Files + Alloc<A = Global>, E: Write>(
    rt: &R,
    name: &str,
    job: &Job<'_, '_, '_, '_>,
    recording: &Recording<'_>,
    sources: Option<&[&[u8]]>,
    err: &mut E,
) -> Result<(), Status> {
    let mut output = create_output(rt, name, job.names, None, None, err)?;
    let written = write_history(&recording.events, sources, &mut output);
    if written.is_err() || output.flush().is_err() {
        output.report_failed(err);
        output.report_partial(err);
        return Err(Status::Failed);
    }
    match output.finish(rt, err) {
        Status::Done => Ok(()),
        status => Err(status),
    }
}

/// Writes a history to the output, and gives the status where not all of it is written.
fn write_output<O: Write, E: Write>(
    alloc: Global,
    recording: &Recording<'_>,
    sources: Option<&[&[u8]]>,
    out: &mut O,
    err: &mut E,
) -> Result<(), Status> {
    let Ok(mut writer) = BufWriter::with_capacity(alloc, GATHERED, out) else {
        return Err(without_memory(err));
    };
    let written = write_history(&recording.events, sources, &mut writer);
    if written.is_err() || writer.flush().is_err() {
        return Err(report_look(&Err(LookFault::Write), err));
    }
    Ok(())
}

/// Writes a history to where the words say, with remarks of where events were seen if they ask for these.
fn write_recording<R: Files + Alloc<A = Global>, O: Write, E: Write>(
    rt: &R,
    job: &Job<'_, '_, '_, '_>,
    recording: &Recording<'_>,
    out: &mut O,
    err: &mut E,
) -> Result<(), Status> {
    let file = file_of(job.words);
    let Ok(shown) = shown_names(rt.alloc(), job.names) else {
        return Err(without_memory(err));
    };
    let Ok(lent) = lent(rt.alloc(), &shown) else {
        return Err(without_memory(err));
    };
    let sources = if_wanted(job.words.sources || file.is_some(), &lent);
    match file {
        Some(name) => write_file(rt, name, job, recording, sources, err),
        None => write_output(rt.alloc(), recording, sources, out, err),
    }
}

/// Writes the history that captures show, and says what is to be said of it.
fn record_shown<R: Files + Alloc<A = Global>, O: Write, E: Write>(
    rt: &R,
    job: &Job<'_, '_, '_, '_>,
    captures: &[Capture<'_>],
    cut: u64,
    out: &mut O,
    err: &mut E,
) -> Result<(), Status> {
    let Ok(recording) = record_history(rt.alloc(), captures, &job.settings) else {
        return Err(without_memory(err));
    };
    let Ok(findings) = find(rt.alloc(), captures, &job.settings, &recording) else {
        return Err(without_memory(err));
    };
    // A history that has to be without doubt isn't written where it isn't, so that a pipe into `judge` is no pass.
    let is_refused = job.words.strict && findings.leave_doubt();
    if !is_refused {
        write_recording(rt, job, &recording, out, err)?;
    }
    report_findings(job.names, &findings, cut, err);
    report_unjudged(job.words, err);
    if is_refused {
        let _ = err.write_all(b"nothing is written, for --strict\n");
        return Err(Status::Bad);
    }
    Ok(())
}

/// By what the words have a history made, where these types begin a tag too.
fn settings_of<'t>(words: &RecordWords<'_>, tpids: &'t [u16]) -> RecordSettings<'t> {
    RecordSettings {
        tpids,
        padded: words.padded,
        wait: words.wait.map(u64::from),
        lost: words.lost.map(u64::from),
        late: words.late,
        early: words.early,
    }
}

/// Writes the history of captures that are asked for, or gives the status where there is none, or not all.
fn record_asked<R: Files + Alloc<A = Global>, O: Write, E: Write>(
    rt: &R,
    job: &Job<'_, '_, '_, '_>,
    asked: &[Asked<'_>],
    out: &mut O,
    err: &mut E,
) -> Result<(), Status> {
    let files = read_captures(rt, asked, job.names, err)?;
    let seen = see_captures(rt.alloc(), &files, job.words.fcs, err)?;
    let Ok(captures) = listed(rt.alloc(), &files, &seen) else {
        return Err(without_memory(err));
    };
    record_shown(rt, job, &captures, seen.cut, out, err)
}

/// Writes the history of the captures that the words name, or gives the status where there is none, or not all.
fn record_captures<R: Files + Alloc<A = Global>, O: Write, E: Write>(
    rt: &R,
    words: &RecordWords<'_>,
    out: &mut O,
    err: &mut E,
) -> Result<(), Status> {
    let tpids = read_tpids(rt.alloc(), &words.tpids, err)?;
    let asked = read_asked(rt.alloc(), words, err)?;
    let Ok(names) = names_of(rt.alloc(), &asked) else {
        return Err(without_memory(err));
    };
    let settings = settings_of(words, &tpids);
    let job = Job {
        words,
        names: &names,
        settings,
    };
    record_asked(rt, &job, &asked, out, err)
}

/// Reads captures whole, and writes the history that they show to `out`, or to the file that the words name; what was passed over, what is in
/// doubt, and why there is none, or not all, to `err`. It gives the status.
pub fn record<R: Files + Alloc<A = Global>, O: Write, E: Write>(
    rt: &R,
    words: &RecordWords<'_>,
    out: &mut O,
    err: &mut E,
) -> Status {
    match record_captures(rt, words, out, err) {
        Ok(()) => Status::Done,
        Err(status) => status,
    }
}
