//! Readers that fail or are interrupted: nothing is lost, and a later call goes on. Captures by hand are rows of `tests/made_captures`.
use crate::drip::{Drip, Failing};
use bench_capture::{
    CaptureFileFault, CaptureFrames, FrameReader, NextFrameFault, ReadFault, RecordedFrame,
};
use std::alloc::{AllocError, Global};
use std::io::ErrorKind;
use std::process::Abort;
use test_fixtures::same;

/// The header of a classic capture in microseconds, with its lowest bytes first.
const LOW_MICRO: [u8; 24] = [
    0xd4, 0xc3, 0xb2, 0xa1, 2, 0, 4, 0, 0, 0, 0, 0, 0, 0, 0, 0, 0, 0, 4, 0, 1, 0, 0, 0,
];

/// A record at 1 second and 500,000, of a frame of three bytes.
const LOW_RECORD: [u8; 19] = [
    1, 0, 0, 0, 0x20, 0xa1, 7, 0, 3, 0, 0, 0, 3, 0, 0, 0, 7, 8, 9,
];

/// A record at 2 seconds and 1, with two bytes of a frame of 60.
const LOW_CUT: [u8; 18] = [2, 0, 0, 0, 1, 0, 0, 0, 2, 0, 0, 0, 60, 0, 0, 0, 4, 5];

/// A section header block of version 1.0 and unknown length, with its lowest bytes first.
const SECTION: [u8; 28] = [
    0x0a, 0x0d, 0x0d, 0x0a, 28, 0, 0, 0, 0x4d, 0x3c, 0x2b, 0x1a, 1, 0, 0, 0, 0xff, 0xff, 0xff,
    0xff, 0xff, 0xff, 0xff, 0xff, 28, 0, 0, 0,
];

/// An Ethernet interface in microseconds.
const MICRO: [u8; 20] = [1, 0, 0, 0, 20, 0, 0, 0, 1, 0, 0, 0, 0, 0, 0, 0, 20, 0, 0, 0];

/// An Ethernet interface in nanoseconds.
const NANO: [u8; 28] = [
    1, 0, 0, 0, 28, 0, 0, 0, 1, 0, 0, 0, 0, 0, 0, 0, 9, 0, 1, 0, 9, 0, 0, 0, 28, 0, 0, 0,
];

/// An enhanced packet of interface 0 at 1,536 ticks, with 5 bytes of 60.
const FIRST_PACKET: [u8; 40] = [
    6, 0, 0, 0, 40, 0, 0, 0, 0, 0, 0, 0, 0, 0, 0, 0, 0, 6, 0, 0, 5, 0, 0, 0, 60, 0, 0, 0, 2, 4, 6,
    8, 10, 0, 0, 0, 40, 0, 0, 0,
];

/// An enhanced packet of interface 1 at 2^32 + 2 ticks, with all of its 4 bytes.
const SECOND_PACKET: [u8; 36] = [
    6, 0, 0, 0, 36, 0, 0, 0, 1, 0, 0, 0, 1, 0, 0, 0, 2, 0, 0, 0, 4, 0, 0, 0, 4, 0, 0, 0, 9, 8, 7,
    6, 36, 0, 0, 0,
];

/// A simple packet of a frame of 3 bytes.
const SIMPLE: [u8; 20] = [3, 0, 0, 0, 20, 0, 0, 0, 3, 0, 0, 0, 1, 2, 3, 0, 20, 0, 0, 0];

/// A frame as it is wanted: its time, how many bytes it had, and those that are stored.
type Wanted = (u64, u32, &'static [u8]);

/// The parts one behind the other.
fn joined(alloc: Global, parts: &[&[u8]]) -> Result<Vec<u8>, AllocError> {
    let mut file = Vec::new(alloc);
    for part in parts {
        file.extend_from_slice(part)?;
    }
    Ok(file)
}

/// Compares one frame.
fn compare_frame(rt: &impl Abort, what: &str, frame: &RecordedFrame<'_>, wanted: &Wanted) {
    let (time, original, bytes) = *wanted;
    same!(rt; frame.time(), time, "{what}");
    same!(rt; frame.original_len(), original, "{what}");
    same!(rt; frame.bytes(), bytes, "{what}");
    same!(rt; frame.is_cut(), bytes.len() < original as usize, "{what}");
}

/// Files by their parts, with their frames and their fault.
const FILES: [(&[&[u8]], &[Wanted], CaptureFileFault); 2] = [
    (
        &[&LOW_MICRO, &LOW_RECORD, &LOW_CUT, &[0; 15]],
        &[(1_500_000_000, 3, &[7, 8, 9]), (2_000_001_000, 60, &[4, 5])],
        CaptureFileFault::Torn(2),
    ),
    (
        &[
            &SECTION,
            &MICRO,
            &FIRST_PACKET,
            &NANO,
            &SECOND_PACKET,
            &SIMPLE,
            &[0; 11],
        ],
        &[
            (1_536_000, 60, &[2, 4, 6, 8, 10]),
            (4_294_967_298, 4, &[9, 8, 7, 6]),
            (4_294_967_298, 3, &[1, 2, 3]),
        ],
        CaptureFileFault::Torn(6),
    ),
];

/// The frames of a file in memory and of a reader of it that is interrupted, and that the fault comes behind them, and then again.
fn compare_file(
    rt: &impl Abort,
    alloc: Global,
    file: &[u8],
    wanted: &[Wanted],
    fault: CaptureFileFault,
) {
    let mut frames = CaptureFrames::open(alloc, file).expect(rt, "a file");
    let mut reader = FrameReader::open(alloc, Drip::of(file)).expect(rt, "a reader");
    same!(rt; reader.frame().is_none(), true);
    for want in wanted {
        let frame = frames
            .next_frame()
            .expect(rt, "no fault")
            .expect(rt, "a frame");
        compare_frame(rt, "in memory", &frame, want);
        same!(rt; reader.advance(), Ok(true));
        compare_frame(rt, "read", &reader.frame().expect(rt, "a frame"), want);
    }
    for _again in 0..2 {
        same!(rt; frames.next_frame().err(), Some(NextFrameFault::Capture(fault)));
        same!(rt; reader.advance(), Err(ReadFault::Capture(fault)));
        same!(rt; reader.frame().is_none(), true);
    }
}

#[test]
fn a_reader_that_is_interrupted_gives_the_same(rt: HostRuntime) {
    for (parts, wanted, fault) in FILES {
        let file = joined(rt.alloc(), parts).expect(&rt, "a file");
        compare_file(&rt, rt.alloc(), &file, wanted, fault);
    }
}

/// A reader of 10 bytes has 24 + 19 + 18 bytes behind the first call.
#[test]
fn a_reader_that_fails_is_read_on(rt: HostRuntime) {
    let parts: [&[u8]; 2] = [&LOW_RECORD, &LOW_CUT];
    let file = joined(rt.alloc(), &parts).expect(&rt, "a file");
    let failed = Err(ReadFault::Unreadable(ErrorKind::TimedOut));
    same!(&rt; FrameReader::open(rt.alloc(), Failing::of(&LOW_MICRO)).err(), failed.err());
    let whole = LOW_MICRO.as_slice();
    let chained = std::io::Read::chain(whole, Failing::of(&file));
    let mut frames = FrameReader::open(rt.alloc(), chained).expect(&rt, "open");
    // 10 of 19 bytes, then 20.
    same!(&rt; frames.advance(), failed);
    same!(&rt; frames.frame().is_none(), true);
    same!(&rt; frames.advance(), Ok(true));
    compare_frame(
        &rt,
        "first",
        &frames.frame().expect(&rt, "first"),
        &(1_500_000_000, 3, &[7, 8, 9]),
    );
    // 20 of 37, 30, then all.
    same!(&rt; frames.advance(), failed);
    same!(&rt; frames.advance(), failed);
    same!(&rt; frames.advance(), Ok(true));
    compare_frame(
        &rt,
        "second",
        &frames.frame().expect(&rt, "second"),
        &(2_000_001_000, 60, &[4, 5]),
    );
    same!(&rt; frames.advance(), failed);
    same!(&rt; frames.advance(), Ok(false));
}
