//! The frames of a capture file in memory.

use crate::fault::{CaptureFileFault, NextFrameFault};
use crate::format::Format;
use crate::recorded::RecordedFrame;
use crate::span::frame_at;
use std::alloc::Global;
use std::marker::Model;

/// A capture file in either format, read up to behind a frame. Contracts see what is left of it: its frames, and its first fault.
#[derive(Drop)]
pub struct CaptureFrames<'a> {
    format: Format,
    rest: &'a [u8],
}

impl<'a> Model for CaptureFrames<'a> {
    ghost use Rattle.std.specs.Prelude.{◌<◌, ◌+◌, ◌^◌, length};
    ghost use Rattle.bench_capture.specs.Formats.{blocks_read, reading_at};
    ghost use Rattle.bench_capture.specs.Reading.{Reading};

    ghost Value = { Reading };

    ghost view = { λ f. reading_at f.format f.rest.now };

    ghost invariant = { λ f. blocks_read f.format + length f.rest.now < 2 ^ 64 };
}

impl<'a> CaptureFrames<'a> {
    ghost use Rattle.bench_capture.specs.Calls.{IsNext, IsOpened};
    ghost use Rattle.bench_capture.specs.File.{reading_of};

    /// The capture that a file is. Err with the fault that its beginning has; no record or block behind that is looked at.
    pub fn open(alloc: Global, file: &'a [u8]) -> Result<CaptureFrames<'a>, CaptureFileFault>
        ensures { IsOpened (reading_of file.now) result }
    {
        match Format::open(alloc, file) {
            Ok((format, length)) => {
                let (_, rest) = file.split_at(length);
                Ok(CaptureFrames { format, rest })
            }
            Err(fault) => Err(fault),
        }
    }

    /// The next frame, or None at the end. Err with the first fault, once all frames in front of it were given. Behind the end, and
    /// behind a fault, each call gives the same again. Err with `NoMemory` where memory is refused: then nothing is lost, and a later
    /// call goes on.
    pub fn next_frame(&mut self) -> Result<Option<RecordedFrame<'a>>, NextFrameFault>
        ensures { IsNext result self.old self.new }
    {
        while self.rest.len() != 0 {
            let bytes = self.rest;
            let taken = match self.format.take(bytes) {
                Ok(taken) => taken,
                Err(fault) => return Err(fault),
            };
            let (_, behind) = bytes.split_at(taken.length);
            self.rest = behind;
            if let Some(span) = taken.frame {
                return Ok(Some(frame_at(bytes, span)));
            }
        }
        match self.format.fault_at_end() {
            Some(fault) => Err(NextFrameFault::Capture(fault)),
            None => Ok(None),
        }
    }
}
