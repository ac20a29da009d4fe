//! What looks inside: the managed entities after a trace, a table, and what becomes of one frame.
use command_words::{ExplainWords, FrameWords, MibWords, RulesWords};
use commands_files::{
    Marked, OverFile, apply_trace, next_frame, open_frames, over_files, read_whole, refuse_twice,
    report_cut, report_text, report_unread, trace_of,
};
use mib_state::Mib;
use script_trace::Applied;
use std::alloc::Global;
use std::io::Write;
use std::rt::Files;
use text_entities::{write_mib, write_mib_json};
use text_explanations::{
    Incoming, Traced, write_explanation, write_explanation_json, write_rules, write_rules_json,
};
use text_writing::{LookFault, Status, TextFault, report_look};

/// Writes managed entities, as text or as JSON.
fn write_entities<O: Write>(
    alloc: Global,
    words: &MibWords<'_>,
    mib: &Mib,
    out: &mut O,
) -> Result<(), TextFault> {
    if words.json {
        write_mib_json(alloc, mib, out)
    } else {
        write_mib(alloc, mib, out)
    }
}

/// Where the name of each of several files stands.
pub(crate) fn marked(json: bool) -> Marked {
    if json { Marked::Object } else { Marked::Lines }
}

/// What `mib` does with each of its traces.
#[derive(Drop)]
struct ShowingMib<'w, R> {
    rt: &'w R,
    words: &'w MibWords<'w>,
}

impl<R: Files + Alloc<A = Global>> OverFile for ShowingMib<'_, R> {
    fn of_file<O: Write, E: Write>(&self, name: &str, out: &mut O, err: &mut E) -> Status {
        let (rt, words) = (self.rt, self.words);
        match apply_trace(rt, &trace_of(&words.traces, name), err) {
            Ok(applied) => report_text(write_entities(rt.alloc(), words, &applied.mib, out), err),
            Err(status) => status,
        }
    }
}

/// Writes the managed entities after each trace to `out`, and why nothing, or not all, to `err`. It gives the status.
pub fn show_mib<R: Files + Alloc<A = Global>, O: Write, E: Write>(
    rt: &R,
    words: &MibWords<'_>,
    out: &mut O,
    err: &mut E,
) -> Status {
    let work = ShowingMib { rt, words };
    over_files(
        rt.alloc(),
        &work,
        &words.traces.files,
        marked(words.json),
        out,
        err,
    )
}

/// What a trace left, as texts show it.
fn traced(applied: &Applied) -> Traced<'_> {
    Traced {
        mib: &applied.mib,
        accepted: &applied.accepted,
    }
}

/// Writes the table in force at a port, as text or as JSON.
fn write_table<O: Write>(
    alloc: Global,
    words: &RulesWords<'_>,
    applied: &Applied,
    out: &mut O,
) -> Result<(), TextFault> {
    if words.json {
        write_rules_json(alloc, &traced(applied), words.port, out)
    } else {
        write_rules(alloc, &traced(applied), words.port, out)
    }
}

/// What `rules` does with each of its traces.
#[derive(Drop)]
struct ShowingRules<'w, R> {
    rt: &'w R,
    words: &'w RulesWords<'w>,
}

impl<R: Files + Alloc<A = Global>> OverFile for ShowingRules<'_, R> {
    fn of_file<O: Write, E: Write>(&self, name: &str, out: &mut O, err: &mut E) -> Status {
        let (rt, words) = (self.rt, self.words);
        match apply_trace(rt, &trace_of(&words.traces, name), err) {
            Ok(applied) => report_text(write_table(rt.alloc(), words, &applied, out), err),
            Err(status) => status,
        }
    }
}

/// Writes the table in force at a port after each trace to `out`, and why nothing, or not all, to `err`. It gives the status.
pub fn show_rules<R: Files + Alloc<A = Global>, O: Write, E: Write>(
    rt: &R,
    words: &RulesWords<'_>,
    out: &mut O,
    err: &mut E,
) -> Status {
    let work = ShowingRules { rt, words };
    over_files(
        rt.alloc(),
        &work,
        &words.traces.files,
        marked(words.json),
        out,
        err,
    )
}

/// The bytes that hexadecimal digits spell, or the status where they spell none; why is written to `err`.
fn frame_of<E: Write>(alloc: Global, digits: &str, err: &mut E) -> Result<Vec<u8>, Status> {
    let Ok(mut bytes) = vec![in alloc; 0u8; digits.len() / 2] else {
        return Err(report_look(&Err(LookFault::NoMemory), err));
    };
    match hex::decode_to_slice(digits.as_bytes(), &mut bytes) {
        Ok(()) => Ok(bytes),
        Err(_) => {
            let _ = err.write_all(
                b"error: the frame is not an even number of hexadecimal digits\n",
            );
            Err(Status::Failed)
        }
    }
}

/// The frame of a number, from 1, of a capture in a file, or the status where it can't be had; why is written to `err`.
fn captured_frame<R: Files + Alloc<A = Global>, E: Write>(
    rt: &R,
    path: &str,
    number: u32,
    err: &mut E,
) -> Result<Vec<u8>, Status> {
    let file = match read_whole(rt, path) {
        Ok(file) => file,
        Err(error) => return Err(report_unread(&error, b"cannot read frames\n", path, err)),
    };
    let mut frames = open_frames(rt.alloc(), &file, path, err)?;
    let mut found = None;
    let mut count = 0u32;
    for _ in 0..number {
        found = next_frame(&mut frames, path, err)?;
        if found.is_none() {
            break;
        }
        count = count.saturating_add(1);
    }
    let Some(frame) = found else {
        let _ = writeln!(
            err,
            "error: {path} has {count} frames, so there is no frame {number}"
        );
        return Err(Status::Failed);
    };
    if frame.is_cut() {
        report_cut(1, err);
    }
    match frame.bytes().to_vec(rt.alloc()) {
        Ok(bytes) => Ok(bytes),
        Err(_) => Err(report_look(&Err(LookFault::NoMemory), err)),
    }
}

/// The bytes of the frame that words ask for, or the status where they can't be had; why is written to `err`.
fn frame_asked<R: Files + Alloc<A = Global>, E: Write>(
    rt: &R,
    words: &FrameWords,
    err: &mut E,
) -> Result<Vec<u8>, Status> {
    match *words {
        FrameWords::Bytes(digits) => frame_of(rt.alloc(), digits, err),
        FrameWords::Captured { file, number } => captured_frame(rt, file, number, err),
    }
}

/// Writes what becomes of a frame, as text or as JSON.
fn write_steps<O: Write>(
    alloc: Global,
    words: &ExplainWords,
    applied: &Applied,
    frame: &[u8],
    out: &mut O,
) -> Result<(), TextFault> {
    let incoming = Incoming {
        port: words.port,
        bytes: frame,
    };
    if words.json {
        write_explanation_json(alloc, &traced(applied), &incoming, out)
    } else {
        write_explanation(alloc, &traced(applied), &incoming, words.all, out)
    }
}

/// Writes what becomes of a frame after a trace, step by step, to `out`, and why nothing, or not all, to `err`. It gives the status.
pub fn explain_frame<R: Files + Alloc<A = Global>, O: Write, E: Write>(
    rt: &R,
    words: &ExplainWords,
    out: &mut O,
    err: &mut E,
) -> Status {
    let alloc = rt.alloc();
    if let FrameWords::Captured { file, .. } = words.frame
        && let Err(status) = refuse_twice(&[words.trace.file, file], err)
    {
        return status;
    }
    let frame = match frame_asked(rt, &words.frame, err) {
        Ok(frame) => frame,
        Err(status) => return status,
    };
    match apply_trace(rt, &words.trace, err) {
        Ok(applied) => report_text(write_steps(alloc, words, &applied, &frame, out), err),
        Err(status) => status,
    }
}
