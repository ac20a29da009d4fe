//! The frames of a port as a capture, to be sent.
use bench_forward::{write_port_header, write_port_packet};
use commands_files::{Output, create_output, without_memory};
use frame_classes::ClassExample;
use std::alloc::Global;
use std::io::Write;
use std::rt::Files;
use text_classes::ClassWords;
use text_writing::{Status, TextFault};

/// The most bytes of a packet's comment.
const MOST_SAID: usize = 36;

/// Writes frames as a capture in the pcapng format: in order, at time 0, all of the interface of the port, each with its class as a comment.
fn write_frames<W: Write>(
    alloc: Global,
    port: u16,
    examples: &[ClassExample],
    writer: &mut W,
) -> Result<(), TextFault> {
    write_port_header(writer, port)?;
    for example in examples {
        let words = ClassWords(&example.class);
        let text = format!(in alloc; "{words}")?;
        let comment = &text.as_bytes()[..text.len().min(MOST_SAID)];
        write_port_packet(writer, 0, example.frame.len(), &example.frame, comment)?;
    }
    Ok(())
}

/// Writes frames to an output, and sends on what is gathered. It gives the status where not all are written, which the output says.
fn write_output<W: Write + Drop, E: Write>(
    alloc: Global,
    port: u16,
    examples: &[ClassExample],
    output: &mut Output<'_, W>,
    err: &mut E,
) -> Result<(), Status> {
    let outcome = write_frames(alloc, port, examples, output);
    if let Err(TextFault::NoMemory) = outcome {
        output.report_partial(err);
        return Err(without_memory(err));
    }
    if outcome.is_err() || output.flush().is_err() {
        output.report_failed(err);
        output.report_partial(err);
        return Err(Status::Failed);
    }
    Ok(())
}

/// Writes frames to standard output, and gives the status where not all are written.
pub(crate) fn send_to_output<O: Write, E: Write>(
    alloc: Global,
    port: u16,
    examples: &[ClassExample],
    out: &mut O,
    err: &mut E,
) -> Result<(), Status> {
    let Ok(mut output) = Output::direct(alloc, "standard output", &mut *out) else {
        return Err(without_memory(err));
    };
    write_output(alloc, port, examples, &mut output, err)
}

/// Writes frames to a file, which gets its name at the end, and gives the status where not all are written.
pub(crate) fn send_to_file<R: Files + Alloc<A = Global>, E: Write>(
    rt: &R,
    name: &str,
    inputs: &[&str],
    port: u16,
    examples: &[ClassExample],
    err: &mut E,
) -> Result<(), Status> {
    let mut output = create_output(rt, name, inputs, None, None, err)?;
    write_output(rt.alloc(), port, examples, &mut output, err)?;
    match output.finish(rt, err) {
        Status::Done => Ok(()),
        status => Err(status),
    }
}
