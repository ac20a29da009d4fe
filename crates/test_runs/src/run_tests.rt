//! What a run writes and refuses, and how it is reported. Larger runs are asked of the program (`tests/drawn`).
use capture::CaptureFault;
use capture_pieces::Pieces;
use run_capture::{FrameSource, RunFault, RunSettings, report_run, run_frames, run_over};
use std::alloc::{AllocError, Global};
use std::process::Abort;
use std::rt::Clock;
use std::sync::Wait;
use std::test::Fail;
use std::thread::Threads;
use test_draws::{PORT_257, UNTAGGED};
use test_fixtures::{Sink, push_message, same};

/// A frame that is cut in its tag.
const CUT: [u8; 14] = [2, 0, 0, 0, 0, 1, 2, 0, 0, 0, 0, 2, 0x81, 0];

/// The header of a capture with the lowest byte first.
const HEADER: [u8; 24] = [
    0xd4, 0xc3, 0xb2, 0xa1, 2, 0, 4, 0, 0, 0, 0, 0, 0, 0, 0, 0, 0, 0, 4, 0, 1, 0, 0, 0,
];

/// What stands before a frame of 16 bytes, and before the first 14 of one of 20.
const RECORD_16: [u8; 16] = [0, 0, 0, 0, 0, 0, 0, 0, 16, 0, 0, 0, 16, 0, 0, 0];

const RECORD_14: [u8; 16] = [0, 0, 0, 0, 0, 0, 0, 0, 14, 0, 0, 0, 20, 0, 0, 0];

/// The lines of two frames that leave with a tag, and a cut one, once all five requests are accepted.
const LINES: &str =
    "accepted 5\nbatch 0 version 5 frames 2\nbatch 1 version 5 frames 1\nframes 3\nbytes 40\ndrop 2 1\ngem 1024 2\n";

/// Two frames without a tag and one that is cut.
const FRAMES: [&[u8]; 3] = [&UNTAGGED, &UNTAGGED, &CUT];

/// A capture of them.
fn file(alloc: Global) -> Result<Vec<u8>, AllocError> {
    let mut file = Vec::new(alloc);
    for part in [
        &HEADER[..],
        &RECORD_16[..],
        &UNTAGGED[..],
        &RECORD_16[..],
        &UNTAGGED[..],
        &RECORD_14[..],
        &CUT[..],
    ] {
        file.extend_from_slice(part)?;
    }
    Ok(file)
}

/// The trace that makes port 257, with a table entry that pushes a tag.
fn tagging(alloc: Global) -> Result<String, AllocError> {
    let mut text = String::new(alloc);
    for digits in PORT_257 {
        push_message(&mut text, "o ", digits)?;
    }
    Ok(text)
}

/// Settings at port 257, where the whole trace is applied first.
fn applied_first(lanes: u16, batch: u32) -> RunSettings {
    RunSettings {
        port: 257,
        lanes,
        batch,
        after: true,
    }
}

/// Runs over a capture, whole and a byte a write.
fn run_on<R: Threads + Wait + Abort + Sync>(rt: &R, alloc: Global, trace: &[u8], lanes: u16) {
    let file = file(alloc).expect(rt, "a capture");
    let settings = applied_first(lanes, 2);
    let mut dribble = Sink::new(alloc, 1, 1000, true);
    let over = run_over(rt, alloc, trace, &file, &settings, &mut dribble);
    same!(rt; (over, dribble.bytes.as_slice()), (Ok(()), LINES.as_bytes()), "{lanes} lanes");
}

#[test]
fn lines_are_the_same_on_one_lane_and_on_eight(rt: HostRuntime) -> Result<(), Fail> {
    let trace = tagging(rt.alloc())?;
    for lanes in [1, 8] {
        run_on(&rt, rt.alloc(), trace.as_bytes(), lanes);
    }
    Ok(())
}

/// A capture in two parts, cut within the second record.
fn in_parts(alloc: Global) -> Result<Pieces, AllocError> {
    let file = file(alloc)?;
    let mut parts = Vec::new(alloc);
    for part in file.chunks(70) {
        parts.push(part.to_vec(alloc)?)?;
    }
    Pieces::join(alloc, parts)
}

/// Runs over frames as they are held, once with nothing shown and once with a line that shows how far it is, and then how many were cut.
fn run_held<R: Threads + Wait + Clock + Alloc<A = Global> + Abort + Sync>(
    rt: &R,
    trace: &[u8],
    frames: FrameSource<'_>,
    cut: Option<u64>,
) {
    let settings = applied_first(3, 2);
    let mut written = Vec::new(rt.alloc());
    let alone = run_frames(
        rt,
        trace,
        frames,
        &settings,
        &mut written,
        None::<&mut Vec<u8>>,
    );
    let mut err = Vec::new(rt.alloc());
    let shown = run_frames(rt, trace, frames, &settings, &mut written, Some(&mut err));
    let wanted = format!(in rt.alloc(); "{LINES}{LINES}").expect(rt, "the lines twice");
    same!(rt; (alone, shown, written.as_slice()), (Ok(None), Ok(cut), wanted.as_bytes()));
}

#[test]
fn frames_have_the_same_lines_however_they_are_held(rt: HostRuntime) -> Result<(), Fail> {
    let trace = tagging(rt.alloc())?;
    let (file, pieces) = (file(rt.alloc())?, in_parts(rt.alloc())?);
    let text = trace.as_bytes();
    run_held(&rt, text, FrameSource::Whole(&file), Some(1));
    run_held(&rt, text, FrameSource::InPieces(&pieces), Some(1));
    run_held(&rt, text, FrameSource::Listed(&FRAMES), None);
    Ok(())
}

#[test]
fn a_writer_that_fails_at_any_byte_has_a_front_of_the_lines(rt: HostRuntime) -> Result<(), Fail> {
    let trace = tagging(rt.alloc())?;
    let file = file(rt.alloc())?;
    let settings = applied_first(1, 2);
    for room in 0..LINES.len() {
        for fails in [false, true] {
            let mut sink = Sink::new(rt.alloc(), 10, room, fails);
            let text = trace.as_bytes();
            let done = run_over(&rt, rt.alloc(), text, &file, &settings, &mut sink);
            same!(rt; (done, sink.bytes.as_slice()), (Err(RunFault::Write), &LINES.as_bytes()[..room]));
        }
    }
    Ok(())
}

/// Settings, a trace and a capture, and the first fault of these.
const REFUSED: [(u16, u32, &[u8], &[u8], RunFault); 8] = [
    (0, 1, b"", &HEADER, RunFault::Settings),
    (17, 1, b"f 1 00\n", &[], RunFault::Settings),
    (1, 0, b"", &HEADER, RunFault::Settings),
    (1, 65_537, b"", &HEADER, RunFault::Settings),
    (u16::MAX, u32::MAX, b"", &HEADER, RunFault::Settings),
    (
        1,
        65_536,
        b"# a\nf 1 00\nx\n",
        &HEADER,
        RunFault::BadTrace(2),
    ),
    (16, 65_536, b"# a\n\nx", &[], RunFault::BadTrace(3)),
    (1, 1, b"", &[], RunFault::Capture(CaptureFault::Magic)),
];

#[test]
fn the_first_fault_is_told_and_nothing_written(rt: HostRuntime) {
    for (lanes, batch, trace, file, fault) in REFUSED {
        let mut written = Vec::new(rt.alloc());
        let settings = applied_first(lanes, batch);
        let done = run_over(&rt, rt.alloc(), trace, file, &settings, &mut written);
        same!(rt; (done, written.len()), (Err(fault), 0), "{lanes} lanes, batches of {batch}");
    }
}

/// Why a run of frames, as they are held, writes nothing.
fn refuse_held<R: Threads + Wait + Clock + Alloc<A = Global> + Abort + Sync>(
    rt: &R,
    lanes: u16,
    trace: &[u8],
    frames: FrameSource<'_>,
    fault: RunFault,
) {
    let settings = applied_first(lanes, 2);
    let mut written = Vec::new(rt.alloc());
    let done = run_frames(
        rt,
        trace,
        frames,
        &settings,
        &mut written,
        None::<&mut Vec<u8>>,
    );
    same!(rt; (done, written.len()), (Err(fault), 0), "{lanes} lanes");
}

#[test]
fn the_first_fault_of_held_frames_is_told(rt: HostRuntime) {
    let magic = RunFault::Capture(CaptureFault::Magic);
    let bad = b"x\n";
    let first_line = RunFault::BadTrace(1);
    for (lanes, trace, frames, fault) in [
        (
            17,
            &bad[..],
            FrameSource::Listed(&FRAMES),
            RunFault::Settings,
        ),
        (17, &bad[..], FrameSource::Unlisted, RunFault::Settings),
        (1, &bad[..], FrameSource::Whole(&[]), first_line),
        (1, &bad[..], FrameSource::Unlisted, first_line),
        (1, &[], FrameSource::Whole(&[]), magic),
        (1, &[], FrameSource::Unlisted, RunFault::Unlisted),
    ] {
        refuse_held(&rt, lanes, trace, frames, fault);
    }
}

/// Faults, with what is said of each, its number and its status.
const FAULTS: [(RunFault, &str, u8, u8); 12] = [
    (RunFault::Settings, "wrong settings\n", 1, 1),
    (RunFault::BadTrace(5), "trace line 5 is bad\n", 2, 2),
    (
        RunFault::Capture(CaptureFault::Magic),
        "capture fault 1\n",
        3,
        2,
    ),
    (
        RunFault::Capture(CaptureFault::Header),
        "capture fault 2\n",
        3,
        2,
    ),
    (
        RunFault::Capture(CaptureFault::Link(113)),
        "capture fault 3 at 113\n",
        3,
        2,
    ),
    (
        RunFault::Capture(CaptureFault::Torn(4_294_967_295)),
        "capture fault 4 at 4294967295\n",
        3,
        2,
    ),
    (
        RunFault::Capture(CaptureFault::TooLong(0)),
        "capture fault 5 at 0\n",
        3,
        2,
    ),
    (RunFault::Unlisted, "unlisted frames\n", 8, 2),
    (RunFault::NoMemory, "no memory\n", 4, 1),
    (RunFault::Refused, "refused\n", 5, 1),
    (RunFault::CountFull, "counters are full\n", 6, 1),
    (RunFault::Write, "write failed\n", 7, 1),
];

/// Compares a report, to writers that take so many bytes.
fn compare_reports(
    rt: &impl Abort,
    alloc: Global,
    outcome: &Result<(), RunFault>,
    words: &str,
    status: u8,
) {
    for room in 0..=words.len() {
        let mut sink = Sink::new(alloc, 100, room, true);
        let told = report_run(outcome, &mut sink);
        same!(rt; (told, sink.bytes.as_slice()), (status, &words.as_bytes()[..room]));
    }
}

#[test]
fn a_report_has_the_words_and_the_status(rt: HostRuntime) {
    compare_reports(&rt, rt.alloc(), &Ok(()), "", 0);
    for (fault, words, number, status) in FAULTS {
        same!(rt; (fault.code(), fault.status()), (number, status), "{words}");
        compare_reports(&rt, rt.alloc(), &Err(fault), words, status);
    }
}
