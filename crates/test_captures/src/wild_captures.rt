//! Bytes that are read as captures.
use capture::{CaptureFault, Pcap};
use std::alloc::{AllocError, Global};
use std::process::Abort;
use std::test::Fail;
use test_draws::Draws;
use test_fixtures::holds;

/// How many captures are read.
const FILES: usize = 10_000;

/// The four spellings of a magic number.
const MAGICS: [[u8; 4]; 4] = [
    [0xa1, 0xb2, 0xc3, 0xd4],
    [0xa1, 0xb2, 0x3c, 0x4d],
    [0xd4, 0xc3, 0xb2, 0xa1],
    [0x4d, 0x3c, 0xb2, 0xa1],
];

/// Whether a file begins with a magic number.
fn has_magic(file: &[u8]) -> bool {
    for magic in &MAGICS {
        if file.starts_with(magic) {
            return true;
        }
    }
    false
}

/// Whether the frames of a capture and 16 bytes before each are what follows 24 bytes, and there are as many as it says.
fn fills(capture: &Pcap<'_>, file: &[u8]) -> bool {
    let mut place = 24usize;
    let mut count = 0u32;
    for frame in capture.frames() {
        let begin = place.saturating_add(16);
        place = begin.saturating_add(frame.len());
        if file.get(begin..place) != Some(frame) {
            return false;
        }
        count = count.saturating_add(1);
    }
    place == file.len() && count == capture.len()
}

/// Whether a file is read as it must be, as far as its first bytes and its length say.
fn is_read(file: &[u8]) -> bool {
    let opened = Pcap::open(file);
    if !has_magic(file) {
        return opened.err() == Some(CaptureFault::Magic);
    }
    if file.len() < 24 {
        return opened.err() == Some(CaptureFault::Header);
    }
    match opened {
        Ok(capture) => fills(&capture, file),
        Err(CaptureFault::Magic | CaptureFault::Header) => false,
        Err(_) => true,
    }
}

/// Reads drawn captures, and counts those without a fault.
fn read_files(rt: &impl Abort, alloc: Global) -> Result<usize, AllocError> {
    let mut draws = Draws::new();
    let mut whole = 0usize;
    for _ in 0..FILES {
        let file = draws.wild_capture(alloc)?;
        holds!(rt; is_read(&file), "{file:?}");
        if Pcap::open(&file).is_ok() {
            whole = whole.saturating_add(1);
        }
    }
    Ok(whole)
}

#[test]
fn a_capture_is_its_frames_or_has_a_fault(rt: HostRuntime) -> Result<(), Fail> {
    let whole = read_files(&rt, rt.alloc())?;
    holds!(rt; whole > 2_000 && whole < 8_000, "{whole}");
    Ok(())
}
