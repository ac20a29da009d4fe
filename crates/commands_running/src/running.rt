//! A run over two files.
use bench_capture::{CaptureFileFault, NextFrameFault};
use bench_pcapng::is_pcapng;
use command_words::{RunWords, TraceWords};
use commands_files::{
    Capture, Naming, explain_fault, lines_until, packets_of, read_capture, read_trace,
    refuse_twice, report_bad_line, report_capture, report_cut, report_text, report_unread,
    report_until,
};
use run_capture::{FrameSource, RunFault, report_run, run_frames};
use std::alloc::Global;
use std::fs::File;
use std::io::{IsTerminal, Write};
use std::rt::{Clock, Files};
use std::sync::Wait;
use std::thread::Threads;
use text_encode::without_mark;
use text_runs::write_run_json;
use text_writing::Status;

/// Writes the words for a fault, and gives the status.
fn report_words<E: Write>(fault: RunFault, err: &mut E) -> Status {
    Status::of(report_run(&Err(fault), err))
}

/// Says why frames aren't run over, with what is wrong with the trace or with the capture, and gives the status.
fn report_fault<E: Write>(fault: RunFault, words: &RunWords, trace: &[u8], err: &mut E) -> Status {
    let status = report_words(fault, err);
    match fault {
        RunFault::BadTrace(line) => report_bad_line(trace, line, err),
        RunFault::Capture(fault) => {
            explain_fault(CaptureFileFault::from(fault), words.frames, err);
        }
        _ => {}
    }
    status
}

/// Says why the packets of a capture aren't run over, and gives the status.
fn report_packets<E: Write>(fault: NextFrameFault, path: &str, err: &mut E) -> Status {
    match fault {
        NextFrameFault::Capture(fault) => report_capture(fault, path, Naming::Behind, err),
        NextFrameFault::NoMemory => report_words(RunFault::NoMemory, err),
    }
}

/// Forwards frames as they are held, and shows how far it is where `err` is a terminal, and then how many were cut: as the run counts them,
/// or of a list as many as these.
fn run_held<
    R: Files + Alloc<A = Global> + Threads + Wait + Clock + Sync,
    O: Write,
    E: Write + IsTerminal + Send,
>(
    rt: &R,
    words: &RunWords,
    trace: &[u8],
    frames: FrameSource<'_>,
    listed: u32,
    out: &mut O,
    err: &mut E,
) -> Result<(), RunFault> {
    let is_shown = err.is_terminal();
    let progress = if is_shown { Some(&mut *err) } else { None };
    let counted = match run_frames(rt, trace, frames, &words.settings, out, progress) {
        Ok(counted) => counted,
        Err(fault) => return Err(fault),
    };
    if is_shown {
        report_cut(counted.unwrap_or(u64::from(listed)), err);
    }
    Ok(())
}

/// The status of a run. Why nothing comes of it is written to `err`.
fn status_of<E: Write>(
    ended: Result<(), RunFault>,
    words: &RunWords,
    trace: &[u8],
    err: &mut E,
) -> Status {
    match ended {
        Ok(()) => Status::Done,
        Err(fault) => report_fault(fault, words, trace, err),
    }
}

/// Forwards the packets of a capture in the pcapng format. One that can't be listed is told where nothing else is wrong.
fn run_over_packets<
    R: Files + Alloc<A = Global> + Threads + Wait + Clock + Sync,
    O: Write,
    E: Write + IsTerminal + Send,
>(rt: &R, words: &RunWords, trace: &[u8], file: &[u8], out: &mut O, err: &mut E) -> Status {
    let why = match packets_of(rt.alloc(), file) {
        Ok(packets) => {
            let frames = FrameSource::Listed(&packets.frames);
            let ended = run_held(rt, words, trace, frames, packets.cut, out, err);
            return status_of(ended, words, trace, err);
        }
        Err(why) => why,
    };
    match run_held(rt, words, trace, FrameSource::Unlisted, 0, out, err) {
        Err(RunFault::Unlisted) => report_packets(why, words.frames, err),
        ended => status_of(ended, words, trace, err),
    }
}

/// Forwards the frames of a capture while a trace is applied.
fn run_over_capture<
    R: Files + Alloc<A = Global> + Threads + Wait + Clock + Sync,
    O: Write,
    E: Write + IsTerminal + Send,
>(rt: &R, words: &RunWords, trace: &[u8], capture: &Capture, out: &mut O, err: &mut E) -> Status {
    let ended = match capture {
        Capture::Whole(file) if is_pcapng(file) => {
            return run_over_packets(rt, words, trace, file, out, err);
        }
        Capture::Whole(file) => {
            let frames = FrameSource::Whole(file);
            run_held(rt, words, trace, frames, 0, out, err)
        }
        Capture::InPieces(pieces) => {
            let frames = FrameSource::InPieces(pieces);
            run_held(rt, words, trace, frames, 0, out, err)
        }
    };
    status_of(ended, words, trace, err)
}

/// The lines of a trace that are asked for. Where it has fewer, `err` says so.
fn asked_lines<'t, E: Write>(trace: &'t [u8], words: &RunWords, err: &mut E) -> &'t [u8] {
    let Some(until) = words.until else {
        return trace;
    };
    let asked = TraceWords {
        file: words.trace,
        until: words.until,
        strict: false,
    };
    report_until(trace, &asked, err);
    lines_until(trace, u64::from(until))
}

/// Reads the trace and then the capture, and forwards the frames of the capture while the trace is applied. The lines of the run are
/// written to `out`. A bad line of the trace comes before a fault of the capture.
fn run_lines<
    R: Files<File = File> + Alloc<A = Global> + Threads + Wait + Clock + Sync,
    O: Write,
    E: Write + IsTerminal + Send,
>(rt: &R, words: &RunWords, out: &mut O, err: &mut E) -> Status {
    if let Err(status) = refuse_twice(&[words.trace, words.frames], err) {
        return status;
    }
    let trace = match read_trace(rt, words.trace, err) {
        Ok(trace) => trace,
        Err(status) => return status,
    };
    let capture = match read_capture(rt, words.frames) {
        Ok(capture) => capture,
        Err(error) => return report_unread(&error, b"cannot read frames\n", words.frames, err),
    };
    let script = asked_lines(without_mark(&trace), words, err);
    run_over_capture(rt, words, script, &capture, out, err)
}

/// The same, with an object in place of the lines.
fn run_as_json<
    R: Files<File = File> + Alloc<A = Global> + Threads + Wait + Clock + Sync,
    O: Write,
    E: Write + IsTerminal + Send,
>(rt: &R, words: &RunWords, out: &mut O, err: &mut E) -> Status {
    let mut lines = Vec::new(rt.alloc());
    let status = run_lines(rt, words, &mut lines, err);
    if status != Status::Done {
        return status;
    }
    report_text(write_run_json(rt.alloc(), &lines, out), err)
}

/// Reads the trace and then the capture, and forwards the frames of the capture while the trace is applied. What comes of it is written
/// to `out`, as lines or as an object, and why nothing does to `err`, which shows how far the run is where it is a terminal, and how
/// many frames were cut. It gives the status.
pub fn run<
    R: Files<File = File> + Alloc<A = Global> + Threads + Wait + Clock + Sync,
    O: Write,
    E: Write + IsTerminal + Send,
>(rt: &R, words: &RunWords, out: &mut O, err: &mut E) -> Status {
    if words.json {
        run_as_json(rt, words, out, err)
    } else {
        run_lines(rt, words, out, err)
    }
}
