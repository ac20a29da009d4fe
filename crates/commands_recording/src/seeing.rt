//! The frames of captures, with where and when they were seen.
use crate::inputs::{CaptureFile, Place};
use crate::interfaces::Interfaces;
use bench_capture::{CaptureFileFault, CaptureFrames, NextFrameFault, RecordedFrame};
use bench_history::{Extent, SeenGem};
use bench_pcapng::is_pcapng;
use bench_record::{Capture, CapturedFrame, Tap};
use commands_files::{Naming, report_capture, without_memory};
use std::alloc::{AllocError, Global};
use std::io::Write;
use text_writing::Status;

/// How many bytes the check sequence of a frame has.
const CHECK_LEN: usize = 4;

/// The frames of captures, those of each by themselves.
#[derive(Drop)]
pub(crate) struct Seen<'f> {
    pub(crate) frames: Vec<Vec<CapturedFrame<'f>>>,
    /// How many of them were cut.
    pub(crate) cut: u64,
}

/// Why the frames of a capture can't be had. Records are numbered from 1.
#[derive(Clone, Copy)]
enum SeeFault {
    /// The capture has this fault.
    Capture(CaptureFileFault),
    /// It has no interfaces, and so no names of any.
    Classic,
    /// The record of this number is of an interface that isn't named for a GEM port.
    Unnamed(usize),
    /// The time of this record would be before the epoch, or beyond what 64 bits of nanoseconds hold.
    Moved(usize),
    NoMemory,
}

impl SeeFault {
    /// The fault that a capture has, or want of memory.
    fn next(fault: NextFrameFault) -> Self {
        match fault {
            NextFrameFault::Capture(fault) => SeeFault::Capture(fault),
            NextFrameFault::NoMemory => SeeFault::NoMemory,
        }
    }
}

/// Where each frame of a capture was seen, frame by frame.
#[derive(Drop)]
enum Taps<'f> {
    /// All at one place.
    Same(Tap),
    /// Each where its interface is named for.
    Named(Interfaces<'f>),
}

impl<'f> Taps<'f> {
    /// Where those of a capture were seen.
    fn of(alloc: Global, capture: &'f CaptureFile<'_>) -> Result<Self, SeeFault> {
        match capture.asked.place {
            Place::At(tap) => Ok(Taps::Same(tap)),
            Place::ByInterface if is_pcapng(&capture.bytes) => {
                Ok(Taps::Named(Interfaces::new(alloc, &capture.bytes)))
            }
            Place::ByInterface => Err(SeeFault::Classic),
        }
    }

    /// Where the next frame was seen, which is the record of this number.
    fn next(&mut self, record: usize) -> Result<Tap, SeeFault> {
        let interfaces = match self {
            Taps::Same(tap) => return Ok(*tap),
            Taps::Named(interfaces) => interfaces,
        };
        match interfaces.next_gem() {
            Ok(Some(gem)) => Ok(Tap::OutOf {
                gem: SeenGem::Port(gem),
            }),
            Ok(None) => Err(SeeFault::Unnamed(record)),
            Err(AllocError) => Err(SeeFault::NoMemory),
        }
    }
}

/// A time moved by so many nanoseconds; None where it would be before the epoch, or beyond what 64 bits hold.
fn moved(time: u64, skew: Option<i64>) -> Option<u64> {
    match skew {
        None => Some(time),
        Some(skew) if skew < 0 => time.checked_sub(skew.unsigned_abs()),
        Some(skew) => time.checked_add(skew.unsigned_abs()),
    }
}

/// What a capture has of a frame that may end in its check sequence, which is left out: whether that is all of it, and its bytes.
fn without_check<'f>(frame: &RecordedFrame<'f>) -> (Extent, &'f [u8]) {
    let length = (frame.original_len() as usize).saturating_sub(CHECK_LEN);
    let bytes = frame.bytes();
    if bytes.len() < length {
        return (Extent::Front, bytes);
    }
    (Extent::Whole, bytes.split_at(length.min(bytes.len())).0)
}

/// What a capture has of a frame: whether all of it, and its bytes.
fn stored<'f>(frame: &RecordedFrame<'f>) -> (Extent, &'f [u8]) {
    let extent = if frame.is_cut() {
        Extent::Front
    } else {
        Extent::Whole
    };
    (extent, frame.bytes())
}

/// What is seen of a frame at a place and a time.
fn captured<'f>(tap: Tap, time: u64, frame: &RecordedFrame<'f>, fcs: bool) -> CapturedFrame<'f> {
    let (extent, bytes) = match tap {
        Tap::Into { .. } | Tap::OutOf { .. } if fcs => without_check(frame),
        _ => stored(frame),
    };
    CapturedFrame {
        time,
        tap,
        extent,
        bytes,
    }
}

/// The frames of a capture, or its first fault.
fn see_all<'f>(
    alloc: Global,
    capture: &'f CaptureFile<'_>,
    fcs: bool,
) -> Result<Vec<CapturedFrame<'f>>, SeeFault> {
    let mut frames = match CaptureFrames::open(alloc, &capture.bytes) {
        Ok(frames) => frames,
        Err(fault) => return Err(SeeFault::Capture(fault)),
    };
    let mut taps = Taps::of(alloc, capture)?;
    let mut seen = Vec::new(alloc);
    // No frame is without bytes of the file.
    for record in 1..=capture.bytes.len() {
        let frame = match frames.next_frame() {
            Ok(Some(frame)) => frame,
            Ok(None) => break,
            Err(fault) => return Err(SeeFault::next(fault)),
        };
        let tap = taps.next(record)?;
        let Some(time) = moved(frame.time(), capture.asked.skew) else {
            return Err(SeeFault::Moved(record));
        };
        if seen.push(captured(tap, time, &frame, fcs)).is_err() {
            return Err(SeeFault::NoMemory);
        }
    }
    Ok(seen)
}

/// Says why the frames of a capture can't be had, and gives the status.
fn report_unseen<E: Write>(fault: SeeFault, name: &str, err: &mut E) -> Status {
    let _ = match fault {
        SeeFault::Capture(fault) => return report_capture(fault, name, Naming::Within, err),
        SeeFault::NoMemory => return without_memory(err),
        SeeFault::Classic => writeln!(
            err,
            "{name}: a capture in libpcap's classic format names no interfaces; give GEM={name} or any={name}"
        ),
        SeeFault::Unnamed(record) => writeln!(
            err,
            "{name}: record {record} is of an interface that isn't named as gem 1024; give GEM={name} or any={name}"
        ),
        SeeFault::Moved(record) => writeln!(
            err,
            "{name}: record {record} would be before 1970 or after 2554 by --skew"
        ),
    };
    Status::Bad
}

/// The frames of captures, or the status where one has a fault.
pub(crate) fn see_captures<'f, E: Write>(
    alloc: Global,
    captures: &'f [CaptureFile<'_>],
    fcs: bool,
    err: &mut E,
) -> Result<Seen<'f>, Status> {
    let mut seen = Seen {
        frames: Vec::new(alloc),
        cut: 0,
    };
    for capture in captures {
        let frames = match see_all(alloc, capture, fcs) {
            Ok(frames) => frames,
            Err(fault) => return Err(report_unseen(fault, capture.asked.name, err)),
        };
        let cut = frames.iter().filter(|frame| frame.extent == Extent::Front);
        seen.cut = seen.cut.saturating_add(cut.count() as u64);
        if seen.frames.push(frames).is_err() {
            return Err(without_memory(err));
        }
    }
    Ok(seen)
}

/// The captures as a history is made of them.
pub(crate) fn listed<'s>(
    alloc: Global,
    files: &[CaptureFile<'_>],
    seen: &'s Seen<'_>,
) -> Result<Vec<Capture<'s>>, AllocError> {
    let mut captures = Vec::with_capacity(alloc, files.len())?;
    for (file, frames) in files.iter().zip(seen.frames.iter()) {
        captures.push(Capture {
            side: file.asked.place.side(),
            frames: frames.as_slice(),
        })?;
    }
    Ok(captures)
}
