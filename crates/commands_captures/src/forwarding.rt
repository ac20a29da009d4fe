//! The frames of a capture, forwarded after a trace.
use bench_capture::{FrameReader, ReadFault};
use bench_forward::{ForwardFault, Forwarded, Outputs, Totals, forward_frames};
use command_words::ForwardWords;
use commands_files::{
    Naming, Output, Taken, apply_trace, create_output, open_named, refuse_twice, report_capture,
    report_cut, report_file, report_unread, without_memory,
};
use mib_state::Mib;
use std::alloc::Global;
use std::io::{Read, Write};
use std::rt::Files;
use text_forwarding::{write_totals, write_totals_json};
use text_writing::{LookFault, Status, TextFault, report_look};

/// Says why not all frames of a capture were forwarded, and how many were, and gives the status.
fn report_forward<E: Write>(
    fault: ForwardFault,
    totals: &Totals,
    path: &str,
    err: &mut E,
) -> Status {
    let status = match fault {
        ForwardFault::Read(ReadFault::Capture(fault)) => {
            report_capture(fault, path, Naming::Behind, err)
        }
        ForwardFault::Read(ReadFault::Unreadable(kind)) => {
            let _ = err.write_all(b"cannot read frames\n");
            report_file(kind, "read", path, err)
        }
        ForwardFault::Read(ReadFault::NoMemory) => without_memory(err),
        ForwardFault::CountFull => {
            let _ = err.write_all(b"counters are full\n");
            Status::Failed
        }
        // Each output says itself why a write of it failed.
        ForwardFault::Write => return Status::Failed,
    };
    let _ = writeln!(err, "{path}: it came after {} frames", totals.frames());
    status
}

/// The first of two statuses that isn't [`Done`](Status::Done).
fn first_of(one: Status, other: Status) -> Status {
    if one == Status::Done { other } else { one }
}

/// Sends on what is gathered for an output, if there is one. It gives the status.
fn flush<W: Write + Drop>(output: &mut Option<Output<'_, W>>) -> Status {
    let Some(output) = output else {
        return Status::Done;
    };
    match output.flush() {
        Ok(()) => Status::Done,
        Err(_) => Status::Failed,
    }
}

/// Gives a file its name, if there is one, and gives the status.
fn finish<R: Files, W: Write + Drop, E: Write>(
    rt: &R,
    output: &Option<Output<'_, W>>,
    err: &mut E,
) -> Status {
    match output {
        Some(output) => output.finish(rt, err),
        None => Status::Done,
    }
}

/// Says why an output isn't whole, if there is one, and where what was written stands.
fn report_unfinished<W: Write + Drop, E: Write>(output: &Option<Output<'_, W>>, err: &mut E) {
    if let Some(output) = output {
        output.report_failed(err);
        output.report_partial(err);
    }
}

/// The frames of a file, or the status where it can't be opened or isn't a capture from its first bytes on.
fn open_frames<R: Files + Alloc<A = Global>, E: Write>(
    rt: &R,
    path: &str,
    err: &mut E,
) -> Result<FrameReader<R::File>, Status> {
    let file = match open_named(rt, path) {
        Ok(file) => file,
        Err(error) => return Err(report_unread(&error, b"cannot read frames\n", path, err)),
    };
    match FrameReader::open(rt.alloc(), file) {
        Ok(frames) => Ok(frames),
        Err(fault) => Err(report_begun(fault, path, err)),
    }
}

/// Says why a capture can't be begun with, and gives the status.
fn report_begun<E: Write>(fault: ReadFault, path: &str, err: &mut E) -> Status {
    match fault {
        ReadFault::Capture(fault) => report_capture(fault, path, Naming::Behind, err),
        ReadFault::Unreadable(kind) => {
            let _ = err.write_all(b"cannot read frames\n");
            report_file(kind, "read", path, err)
        }
        ReadFault::NoMemory => without_memory(err),
    }
}

/// Writes totals, as text or as JSON, and how many frames were cut to `err`. It gives the status.
fn report_totals<O: Write, E: Write>(
    alloc: Global,
    totals: &Totals,
    json: bool,
    out: &mut O,
    err: &mut E,
) -> Status {
    let outcome = if json {
        write_totals_json(alloc, totals, out)
    } else {
        write_totals(alloc, totals, out)
    };
    report_cut(totals.cut(), err);
    report_look(&outcome.map_err(LookFault::from), err)
}

/// Writes totals to `err`, where the frames go to the output. It gives the status; a write that fails is passed over.
fn report_beside<E: Write>(alloc: Global, totals: &Totals, json: bool, err: &mut E) -> Status {
    let outcome = if json {
        write_totals_json(alloc, totals, err)
    } else {
        write_totals(alloc, totals, err)
    };
    report_cut(totals.cut(), err);
    match outcome {
        Err(TextFault::NoMemory) => without_memory(err),
        _ => Status::Done,
    }
}

/// The outputs of a call, each where it is asked for.
type Written<'n, W, D, V> = Outputs<Output<'n, W>, Output<'n, D>, Output<'n, V>>;

/// Sends on what is gathered for the outputs. It gives the status.
fn flush_all<W: Write + Drop, D: Write + Drop, V: Write + Drop>(
    outputs: &mut Written<'_, W, D, V>,
) -> Status {
    let packets = flush(&mut outputs.packets);
    let dropped = flush(&mut outputs.dropped);
    let verdicts = flush(&mut outputs.verdicts);
    first_of(packets, first_of(dropped, verdicts))
}

/// Gives the files their names. It gives the status.
fn finish_all<R: Files, W: Write + Drop, D: Write + Drop, V: Write + Drop, E: Write>(
    rt: &R,
    outputs: &Written<'_, W, D, V>,
    err: &mut E,
) -> Status {
    let packets = finish(rt, &outputs.packets, err);
    let dropped = finish(rt, &outputs.dropped, err);
    let verdicts = finish(rt, &outputs.verdicts, err);
    first_of(packets, first_of(dropped, verdicts))
}

/// Forwards frames, and gives the totals, or the status where not all are forwarded and written. Files get their names where all are.
fn forward_open<
    R: Files + Alloc<A = Global>,
    F: Read + Drop,
    W: Write + Drop,
    D: Write + Drop,
    V: Write + Drop,
    E: Write,
>(
    rt: &R,
    job: &Job<'_, '_>,
    frames: &mut FrameReader<F>,
    outputs: &mut Written<'_, W, D, V>,
    err: &mut E,
) -> Result<Totals, Status> {
    let path = job.words.frames;
    let Ok(forwarded) = forward_frames(rt.alloc(), job.mib, job.words.port, frames, outputs) else {
        return Err(without_memory(err));
    };
    let Forwarded { totals, ended } = forwarded;
    let ended = match ended {
        Ok(()) => Status::Done,
        Err(fault) => report_forward(fault, &totals, path, err),
    };
    let status = first_of(ended, flush_all(outputs));
    if status != Status::Done {
        report_unfinished(&outputs.packets, err);
        report_unfinished(&outputs.dropped, err);
        report_unfinished(&outputs.verdicts, err);
        return Err(status);
    }
    match finish_all(rt, outputs, err) {
        Status::Done => Ok(totals),
        status => Err(status),
    }
}

/// What is forwarded, and by what.
#[derive(Drop)]
struct Job<'w, 'm> {
    words: &'w ForwardWords<'w>,
    mib: &'m Mib,
}

/// The name under which an output is written, if it is a file beside its name.
fn taken<'o, W: Write + Drop>(output: &'o Option<Output<'_, W>>) -> Option<Taken<'o>> {
    output.as_ref().and_then(|output| output.taken())
}

/// Lets go of a file of which nothing is written yet, if there is one.
fn discard<R: Files, W: Write + Drop>(rt: &R, output: &Option<Output<'_, W>>) {
    if let Some(output) = output {
        output.discard(rt);
    }
}

/// The output of a name, if one is given, which is none of the inputs and of these outputs; or the status where it can't be written.
fn create_asked<'n, R: Files + Alloc<A = Global>, E: Write>(
    rt: &R,
    words: &ForwardWords<'_>,
    name: Option<&'n str>,
    one: Option<Taken<'_>>,
    other: Option<Taken<'_>>,
    err: &mut E,
) -> Result<Option<Output<'n, R::File>>, Status> {
    let inputs = [words.trace.file, words.frames];
    match name {
        Some(name) => Ok(Some(create_output(rt, name, &inputs, one, other, err)?)),
        None => Ok(None),
    }
}

/// Forwards frames to these outputs, where there are any, and to the file of verdicts, if one is named.
fn forward_into<'w, R: Files + Alloc<A = Global>, W: Write + Drop, D: Write + Drop, E: Write>(
    rt: &R,
    job: &Job<'w, '_>,
    frames: &mut FrameReader<R::File>,
    packets: Option<Output<'w, W>>,
    dropped: Option<Output<'w, D>>,
    err: &mut E,
) -> Result<Totals, Status> {
    let words = job.words;
    let one = taken(&packets);
    let other = taken(&dropped);
    let verdicts = match create_asked(rt, words, words.verdicts, one, other, err) {
        Ok(verdicts) => verdicts,
        Err(status) => {
            discard(rt, &packets);
            discard(rt, &dropped);
            return Err(status);
        }
    };
    let mut outputs = Outputs {
        packets,
        dropped,
        verdicts,
    };
    forward_open(rt, job, frames, &mut outputs, err)
}

/// Forwards frames of which those that leave are written to `out`, and writes the totals to `err`.
fn leave_to_output<R: Files + Alloc<A = Global>, O: Write, E: Write>(
    rt: &R,
    job: &Job<'_, '_>,
    frames: &mut FrameReader<R::File>,
    out: &mut O,
    err: &mut E,
) -> Result<Status, Status> {
    let words = job.words;
    let dropped = create_asked(rt, words, words.dropped, None, None, err)?;
    let Ok(packets) = Output::direct(rt.alloc(), "standard output", &mut *out) else {
        discard(rt, &dropped);
        return Err(without_memory(err));
    };
    let totals = forward_into(rt, job, frames, Some(packets), dropped, err)?;
    Ok(report_beside(rt.alloc(), &totals, words.json, err))
}

/// Forwards frames of which those that are dropped are written to `out`, and writes the totals to `err`.
fn drop_to_output<R: Files + Alloc<A = Global>, O: Write, E: Write>(
    rt: &R,
    job: &Job<'_, '_>,
    frames: &mut FrameReader<R::File>,
    out: &mut O,
    err: &mut E,
) -> Result<Status, Status> {
    let words = job.words;
    let packets = create_asked(rt, words, words.out, None, None, err)?;
    let Ok(dropped) = Output::direct(rt.alloc(), "standard output", &mut *out) else {
        discard(rt, &packets);
        return Err(without_memory(err));
    };
    let totals = forward_into(rt, job, frames, packets, Some(dropped), err)?;
    Ok(report_beside(rt.alloc(), &totals, words.json, err))
}

/// The captures that are asked for: of the frames that leave, and of those that are dropped.
type Captures<'n, F> = (Option<Output<'n, F>>, Option<Output<'n, F>>);

/// The files of the captures that the words name, or the status where one can't be written.
fn create_captures<'w, R: Files + Alloc<A = Global>, E: Write>(
    rt: &R,
    words: &'w ForwardWords<'w>,
    err: &mut E,
) -> Result<Captures<'w, R::File>, Status> {
    let packets = create_asked(rt, words, words.out, None, None, err)?;
    match create_asked(rt, words, words.dropped, taken(&packets), None, err) {
        Ok(dropped) => Ok((packets, dropped)),
        Err(status) => {
            discard(rt, &packets);
            Err(status)
        }
    }
}

/// Forwards frames whose verdicts are written to `out`, and writes the totals to `err`.
fn judge_to_output<R: Files + Alloc<A = Global>, O: Write, E: Write>(
    rt: &R,
    job: &Job<'_, '_>,
    frames: &mut FrameReader<R::File>,
    out: &mut O,
    err: &mut E,
) -> Result<Status, Status> {
    let words = job.words;
    let (packets, dropped) = create_captures(rt, words, err)?;
    let Ok(verdicts) = Output::direct(rt.alloc(), "standard output", &mut *out) else {
        discard(rt, &packets);
        discard(rt, &dropped);
        return Err(without_memory(err));
    };
    let mut outputs = Outputs {
        packets,
        dropped,
        verdicts: Some(verdicts),
    };
    let totals = forward_open(rt, job, frames, &mut outputs, err)?;
    Ok(report_beside(rt.alloc(), &totals, words.json, err))
}

/// Forwards frames that are written to files, if at all, and writes the totals to `out`.
fn forward_to_files<R: Files + Alloc<A = Global>, O: Write, E: Write>(
    rt: &R,
    job: &Job<'_, '_>,
    frames: &mut FrameReader<R::File>,
    out: &mut O,
    err: &mut E,
) -> Result<Status, Status> {
    let words = job.words;
    let (packets, dropped) = create_captures(rt, words, err)?;
    let totals = forward_into(rt, job, frames, packets, dropped, err)?;
    Ok(report_totals(rt.alloc(), &totals, words.json, out, err))
}

/// Whether an output is standard output.
fn is_standard(name: Option<&str>) -> bool {
    matches!(name, Some("-"))
}

/// Refuses words that name standard output for two outputs.
fn refuse_outputs<E: Write>(words: &ForwardWords<'_>, err: &mut E) -> Result<(), Status> {
    let mut first = None;
    for (option, name) in [
        ("--out", words.out),
        ("--dropped", words.dropped),
        ("--verdicts", words.verdicts),
    ] {
        if !is_standard(name) {
            continue;
        }
        if let Some(other) = first {
            let _ = writeln!(
                err,
                "cannot write {option} -: it is the same output as {other} -, standard output"
            );
            return Err(Status::Failed);
        }
        first = Some(option);
    }
    Ok(())
}

/// Forwards the frames of a capture after a trace, and writes what comes of them to the files that the words name, and the totals to `out`.
/// Where `out` gets the frames or the verdicts, the totals go to `err`, and so does why there are none, or not all. It gives the status.
pub fn forward<R: Files + Alloc<A = Global>, O: Write, E: Write>(
    rt: &R,
    words: &ForwardWords<'_>,
    out: &mut O,
    err: &mut E,
) -> Status {
    if let Err(status) = refuse_twice(&[words.trace.file, words.frames], err) {
        return status;
    }
    if let Err(status) = refuse_outputs(words, err) {
        return status;
    }
    let applied = match apply_trace(rt, &words.trace, err) {
        Ok(applied) => applied,
        Err(status) => return status,
    };
    // The capture's first bytes are read before an output is made.
    let mut frames = match open_frames(rt, words.frames, err) {
        Ok(frames) => frames,
        Err(status) => return status,
    };
    let mib = &applied.mib;
    let job = Job { words, mib };
    let status = match (words.out, words.dropped, words.verdicts) {
        (Some("-"), _, _) => leave_to_output(rt, &job, &mut frames, out, err),
        (_, Some("-"), _) => drop_to_output(rt, &job, &mut frames, out, err),
        (_, _, Some("-")) => judge_to_output(rt, &job, &mut frames, out, err),
        _ => forward_to_files(rt, &job, &mut frames, out, err),
    };
    match status {
        Ok(status) => status,
        Err(status) => status,
    }
}
