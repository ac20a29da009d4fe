//! The classes of ports, written.
use crate::sending::{send_to_file, send_to_output};
use command_words::CoverWords;
use commands_files::{apply_trace, report_text, without_memory};
use frame_classes::{ClassExample, classes};
use mib_state::Mib;
use std::alloc::{AllocError, Global};
use std::io::{BufWriter, Write};
use std::rt::Files;
use text_classes::{ClassList, Form};
use text_every_frame::{ports_of, write_classes};
use text_writing::{Status, TextFault};

/// What is said of two options that don't go together, in the form of the other words that are refused.
const TOGETHER: &[u8] =
    b"error: the argument '--script' cannot be used with '--json'\n\nFor more information, try '--help'.\n";

/// How many ports are named at most.
const NAMED: usize = 10;

/// What is listed, and how it is shown.
#[derive(Drop)]
struct Job<'w, 'm> {
    words: &'w CoverWords<'w>,
    mib: &'m Mib,
    form: Form,
}

/// How the words ask for classes to be shown, or the status where they ask for two ways.
fn form_of<E: Write>(words: &CoverWords<'_>, err: &mut E) -> Result<Form, Status> {
    match (words.script, words.json) {
        (true, true) => {
            let _ = err.write_all(TOGETHER);
            Err(Status::Failed)
        }
        (true, false) => Ok(Form::Script),
        (false, true) => Ok(Form::Json),
        (false, false) => Ok(Form::Lines),
    }
}

/// The classes of a port that are listed.
fn classes_at(
    alloc: Global,
    job: &Job<'_, '_>,
    port: u16,
) -> Result<Vec<ClassExample>, AllocError> {
    classes(alloc, job.mib, port, job.words.least.map_or(0, usize::from))
}

/// Writes these classes of a port.
fn write_port<W: Write>(
    alloc: Global,
    form: Form,
    port: u16,
    examples: &[ClassExample],
    writer: &mut W,
) -> Result<(), TextFault> {
    let Ok(mut gathered) = BufWriter::new(alloc, writer) else {
        return Err(TextFault::NoMemory);
    };
    let mut list = ClassList::new(alloc, form);
    list.begin(&mut gathered)?;
    list.port(port, examples, &mut gathered)?;
    list.end(&mut gathered)?;
    gathered.flush().map_err(|_| TextFault::Write)
}

/// Writes the classes of these ports.
fn write_ports<W: Write>(
    alloc: Global,
    job: &Job<'_, '_>,
    ports: &[u16],
    writer: &mut W,
) -> Result<(), TextFault> {
    let Ok(mut gathered) = BufWriter::new(alloc, writer) else {
        return Err(TextFault::NoMemory);
    };
    let least = job.words.least.unwrap_or(0);
    write_classes(alloc, job.mib, ports, least, job.form, &mut gathered)?;
    gathered.flush().map_err(|_| TextFault::Write)
}

/// Says that a capture is of one port, where there is none or there are several, and gives the status.
fn report_ports<E: Write>(name: &str, ports: &[u16], err: &mut E) -> Status {
    let _ = match ports.len() {
        0 => write!(err, "cannot write {name}: the trace names no port"),
        count => write!(err, "cannot write {name}: the trace names {count} ports,"),
    };
    for (place, port) in ports.iter().take(NAMED).enumerate() {
        let comma = if place == 0 { "" } else { "," };
        let _ = write!(err, "{comma} {port}");
    }
    let more = if ports.len() > NAMED { ", .." } else { "" };
    let _ = writeln!(err, "{more}; --port says which one");
    Status::Bad
}

/// Writes the frames of a port to `out`, and lists its classes to `err`, where a write that fails is passed over.
fn cover_to_output<O: Write, E: Write>(
    alloc: Global,
    job: &Job<'_, '_>,
    port: u16,
    out: &mut O,
    err: &mut E,
) -> Result<Status, Status> {
    let Ok(examples) = classes_at(alloc, job, port) else {
        return Err(without_memory(err));
    };
    send_to_output(alloc, port, &examples, out, err)?;
    match write_port(alloc, job.form, port, &examples, err) {
        Err(TextFault::NoMemory) => Err(without_memory(err)),
        _ => Ok(Status::Done),
    }
}

/// Writes the frames of a port to the file of this name, and lists its classes to `out`.
fn cover_to_file<R: Files + Alloc<A = Global>, O: Write, E: Write>(
    rt: &R,
    job: &Job<'_, '_>,
    name: &str,
    port: u16,
    out: &mut O,
    err: &mut E,
) -> Result<Status, Status> {
    let alloc = rt.alloc();
    let Ok(examples) = classes_at(alloc, job, port) else {
        return Err(without_memory(err));
    };
    let words = job.words;
    let inputs = [words.trace.file];
    send_to_file(rt, name, &inputs, port, &examples, err)?;
    let outcome = write_port(alloc, job.form, port, &examples, out);
    Ok(report_text(outcome, err))
}

/// Lists the classes of these ports, and writes the frames of the only one where that is asked for.
fn cover_ports<R: Files + Alloc<A = Global>, O: Write, E: Write>(
    rt: &R,
    job: &Job<'_, '_>,
    ports: &[u16],
    out: &mut O,
    err: &mut E,
) -> Result<Status, Status> {
    let alloc = rt.alloc();
    let Some(name) = job.words.out else {
        return Ok(report_text(write_ports(alloc, job, ports, out), err));
    };
    let [port] = ports else {
        return Err(report_ports(name, ports, err));
    };
    if name == "-" {
        return cover_to_output(alloc, job, *port, out, err);
    }
    cover_to_file(rt, job, name, *port, out, err)
}

/// Lists what the words ask for, or gives the status where it can't be had.
fn cover_asked<R: Files + Alloc<A = Global>, O: Write, E: Write>(
    rt: &R,
    words: &CoverWords<'_>,
    out: &mut O,
    err: &mut E,
) -> Result<Status, Status> {
    let form = form_of(words, err)?;
    let applied = apply_trace(rt, &words.trace, err)?;
    let mib = &applied.mib;
    let Ok(ports) = ports_of(rt.alloc(), mib, words.port) else {
        return Err(without_memory(err));
    };
    let job = Job { words, mib, form };
    cover_ports(rt, &job, &ports, out, err)
}

/// Writes the classes of the frames that come in at ports after a trace, each with a frame, to `out`; where words name a file for the frames of
/// the only port, these to that file; and why nothing, or not all, to `err`. Where `out` gets the frames, the classes go to `err`. It gives
/// the status.
pub fn cover<R: Files + Alloc<A = Global>, O: Write, E: Write>(
    rt: &R,
    words: &CoverWords<'_>,
    out: &mut O,
    err: &mut E,
) -> Status {
    match cover_asked(rt, words, out, err) {
        Ok(status) => status,
        Err(status) => status,
    }
}
