ghost use Rattle.std.specs.Prelude.{◌≡◌, length};

use capture::{CaptureFault, ListFault, Pcap, law_of_records, list_frames};
use capture_pieces::Pieces;
use std::alloc::{AllocError, Global};
use std::process::Abort;
use test_fixtures::same;

/// Three records of two bytes, of none and of one, with the lowest byte first.
const THREE: [u8; 75] = [
    0xd4, 0xc3, 0xb2, 0xa1, 2, 0, 4, 0, 0, 0, 0, 0, 0, 0, 0, 0, 0, 0, 4, 0, 1, 0, 0, 0, // header
    0, 0, 0, 0, 0, 0, 0, 0, 2, 0, 0, 0, 9, 0, 0, 0, 0xaa, 0xbb, //
    0, 0, 0, 0, 0, 0, 0, 0, 0, 0, 0, 0, 9, 0, 0, 0, //
    0, 0, 0, 0, 0, 0, 0, 0, 1, 0, 0, 0, 9, 0, 0, 0, 0xcc,
];

/// The frames of these.
const FRAMES_OF_THREE: [&[u8]; 3] = [&[0xaa, 0xbb], &[], &[0xcc]];

/// The first two, where the second has bytes of a length that no record has.
const TOO_LONG: [u8; 58] = [
    0xd4, 0xc3, 0xb2, 0xa1, 2, 0, 4, 0, 0, 0, 0, 0, 0, 0, 0, 0, 0, 0, 4, 0, 1, 0, 0, 0, // header
    0, 0, 0, 0, 0, 0, 0, 0, 2, 0, 0, 0, 9, 0, 0, 0, 0xaa, 0xbb, //
    0, 0, 0, 0, 0, 0, 0, 0, 0, 0, 0xff, 0, 9, 0, 0, 0,
];

/// Why a file has no frames.
const FAULTS: [(&[u8], CaptureFault); 4] = [
    (&[], CaptureFault::Magic),
    (&HEADER_CUT, CaptureFault::Header),
    (&SECOND_CUT, CaptureFault::Torn(1)),
    (&TOO_LONG, CaptureFault::TooLong(1)),
];

/// A header that lacks its last byte.
const HEADER_CUT: [u8; 23] = [
    0xd4, 0xc3, 0xb2, 0xa1, 2, 0, 4, 0, 0, 0, 0, 0, 0, 0, 0, 0, 0, 0, 4, 0, 1, 0, 0,
];

/// A record, and another that lacks its last byte.
const SECOND_CUT: [u8; 56] = [
    0xd4, 0xc3, 0xb2, 0xa1, 2, 0, 4, 0, 0, 0, 0, 0, 0, 0, 0, 0, 0, 0, 4, 0, 1, 0, 0, 0, // header
    0, 0, 0, 0, 0, 0, 0, 0, 0, 0, 0, 0, 9, 0, 0, 0, //
    0, 0, 0, 0, 0, 0, 0, 0, 1, 0, 0, 0, 9, 0, 0, 0,
];

/// How many frames come, which a caller's contract can say.
fn count_frames(capture: &Pcap<'_>) -> usize
    ensures { result ≡ length capture.now }
{
    capture.frames().count()
}

#[test]
fn the_frames_of_a_file_are_those_of_its_records(rt: HostRuntime) {
    let capture = Pcap::open(&THREE).expect(&rt, "three records");
    same!(rt; (capture.len(), count_frames(&capture)), (3, 3));
    let mut frames = capture.frames();
    let came = [frames.next(), frames.next(), frames.next(), frames.next()];
    same!(rt; came, [Some(FRAMES_OF_THREE[0]), Some(FRAMES_OF_THREE[1]), Some(FRAMES_OF_THREE[2]), None]);
    let list = list_frames(rt.alloc(), &THREE).expect(&rt, "three records");
    same!(rt; list.as_slice(), FRAMES_OF_THREE.as_slice());
    law_of_records();
}

/// A file in parts of so many bytes.
fn parted(alloc: Global, file: &[u8], size: usize) -> Result<Pieces, AllocError> {
    let mut parts = Vec::new(alloc);
    for part in file.chunks(size.max(1)) {
        parts.push(part.to_vec(alloc)?)?;
    }
    Pieces::join(alloc, parts)
}

/// Compares the frames of three records, and their batches of two, whose file is in parts of so many bytes.
fn compare_parts(rt: &impl Abort, alloc: Global, size: usize) {
    let pieces = parted(alloc, &THREE, size).expect(rt, "parts");
    let list = pieces.list_frames(alloc).expect(rt, "three records");
    same!(rt; list.as_slice(), FRAMES_OF_THREE.as_slice(), "parts of {size}");
    let batches = pieces.cut(alloc, 2).expect(rt, "three records");
    same!(rt; batches.frame_count(), 3);
    for (batch, from, to) in [(0, 0, 2), (1, 2, 3), (2, 3, 3), (u32::MAX, 3, 3)] {
        let list = batches.frames_of(alloc, batch).expect(rt, "a batch");
        same!(rt; list.as_slice(), &FRAMES_OF_THREE[from..to], "batch {batch}, parts of {size}");
    }
}

#[test]
fn a_file_in_parts_of_any_size_has_the_same_frames(rt: HostRuntime) {
    for size in 1..=THREE.len() {
        compare_parts(&rt, rt.alloc(), size);
    }
}

/// Why the frames of a file in parts aren't listed.
fn why_no_parts(alloc: Global, file: &[u8], size: usize) -> Option<ListFault> {
    match parted(alloc, file, size) {
        Ok(pieces) => pieces.list_frames(alloc).err(),
        Err(_) => None,
    }
}

#[test]
fn a_file_in_parts_has_the_fault_of_a_file(rt: HostRuntime) {
    for (file, fault) in FAULTS {
        let want = Some(ListFault::Capture(fault));
        same!(rt; (Pcap::open(file).err(), list_frames(rt.alloc(), file).err()), (Some(fault), want));
        for size in [1, 20, 41] {
            same!(rt; why_no_parts(rt.alloc(), file, size), want, "parts of {size}");
        }
    }
}
