//! Captures as the program names them: what is said of a fault of one, and its frames listed.
use crate::files::report_file;
use bench_capture::{CaptureFileFault, CaptureFrames, NextFrameFault, RecordedFrame};
use std::alloc::Global;
use std::io::{ErrorKind, Write};
use text_writing::Status;

/// Where the name of a file stands in what is said of a fault.
#[derive(Clone, Copy)]
pub enum Naming {
    /// In the words that are fixed, and behind them.
    Within,
    /// Behind the words that are fixed.
    Behind,
}

/// Says that a capture has a fault, first in the words that are fixed, and gives the status.
pub fn report_capture<E: Write>(
    fault: CaptureFileFault,
    file: &str,
    naming: Naming,
    err: &mut E,
) -> Status {
    let code = fault.code();
    let _ = write!(err, "capture fault {code}");
    if let Some(place) = fault.place() {
        let _ = write!(err, " at {place}");
    }
    if matches!(naming, Naming::Within) {
        let _ = write!(err, " in {file}");
    }
    let _ = err.write_all(b"\n");
    explain_fault(fault, file, err);
    Status::Bad
}

/// Says what is wrong with a capture, and what is expected, behind the name of its file.
pub fn explain_fault<E: Write>(fault: CaptureFileFault, file: &str, err: &mut E) {
    let _ = writeln!(err, "{file}: {fault}");
}

/// Says how many frames were cut, if some were.
pub fn report_cut<E: Write>(cut: u64, err: &mut E) {
    if cut > 0 {
        let _ = writeln!(err, "{cut} frames are cut by the capture's snap length");
    }
}

/// The frames of a capture, or the status where it has a fault; which is written to `err`.
pub fn open_frames<'a, E: Write>(
    alloc: Global,
    file: &'a [u8],
    path: &str,
    err: &mut E,
) -> Result<CaptureFrames<'a>, Status> {
    match CaptureFrames::open(alloc, file) {
        Ok(frames) => Ok(frames),
        Err(fault) => Err(report_capture(fault, path, Naming::Behind, err)),
    }
}

/// The next frame of a capture, or the status where there is a fault in front of it; which is written to `err`.
pub fn next_frame<'a, E: Write>(
    frames: &mut CaptureFrames<'a>,
    path: &str,
    err: &mut E,
) -> Result<Option<RecordedFrame<'a>>, Status> {
    match frames.next_frame() {
        Ok(frame) => Ok(frame),
        Err(NextFrameFault::Capture(fault)) => Err(report_capture(
            fault,
            path,
            Naming::Behind,
            err,
        )),
        Err(NextFrameFault::NoMemory) => Err(report_file(
            ErrorKind::OutOfMemory,
            "read",
            path,
            err,
        )),
    }
}

/// The frames of a capture.
#[derive(Drop)]
pub struct Packets<'a> {
    /// Each as a slice of the file.
    pub frames: Vec<&'a [u8]>,
    /// How many of them were cut when they were taken.
    pub cut: u32,
}

/// The frames of a capture in either format, listed.
pub fn packets_of<'a>(alloc: Global, file: &'a [u8]) -> Result<Packets<'a>, NextFrameFault> {
    let mut reader = match CaptureFrames::open(alloc, file) {
        Ok(reader) => reader,
        Err(fault) => return Err(NextFrameFault::Capture(fault)),
    };
    let mut frames = Vec::new(alloc);
    let mut cut = 0u32;
    // No frame is without bytes of the file.
    for _ in 0..file.len() {
        let Some(frame) = reader.next_frame()? else {
            break;
        };
        if frames.push(frame.bytes()).is_err() {
            return Err(NextFrameFault::NoMemory);
        }
        cut = cut.saturating_add(u32::from(frame.is_cut()));
    }
    Ok(Packets { frames, cut })
}
