//! Storms, whose outcome is the same whatever the order in which threads run.
use crate::storm::{Drawn, Storm, Wrong, check, run};
use forward_plan::Verdict;
use frame_batch::Report;
use omci_msg::{Request, read};
use std::alloc::{AllocError, Global};
use std::process::Abort;
use std::sync::Wait;
use std::sync::atomic::AtomicU64;
use std::thread::Threads;
use test_draws::{Draws, PORTS, UNTAGGED, set};
use test_fixtures::same;

/// How many batches a lane forwards beside the messages.
const BATCHES: u32 = 200;

/// How many frames a batch of the fixed storm has.
const FRAMES: usize = 64;

/// How many times the GEM port is set in the fixed storm.
const SETS: u16 = 1_000;

/// What leads port 257 to port-ID 1024: a GEM port network CTP, an interworking point, a mapper and a table.
const SET_UP: [&[u8]; 4] = [
    &[0, 1, 0x44, 0x0a, 1, 0x0c, 4, 1, 4, 0, 0x80, 1, 3],
    &[0, 2, 0x44, 0x0a, 1, 0x0a, 5, 1, 4, 1, 5, 6, 1],
    &[
        0, 3, 0x44, 0x0a, 0, 0x82, 6, 1, 1, 1, 5, 1, 5, 1, 5, 1, 5, 1, 5, 1, 5, 1, 5, 1, 5, 1, 1,
        0, 1,
    ],
    &[0, 4, 0x44, 0x0a, 0, 0xab, 7, 1, 2, 1, 1],
];

/// The requests of the set-up.
fn set_up(alloc: Global) -> Result<Vec<Request>, AllocError> {
    let mut requests = Vec::new(alloc);
    for begins in &SET_UP {
        let mut message = [0; 48];
        message[43] = 0x28;
        for (to, from) in message.iter_mut().zip(*begins) {
            *to = *from;
        }
        if let Ok(request) = read(&message) {
            requests.push(request)?;
        }
    }
    Ok(requests)
}

/// The Sets of port-IDs 1025, 1026 and so on.
fn sets(alloc: Global) -> Result<Vec<Request>, AllocError> {
    let mut requests = Vec::new(alloc);
    for k in 1..=SETS {
        let value = k.saturating_add(1024).to_be_bytes();
        requests.push(set(268, 0x0401, 0x8000, &value))?;
    }
    Ok(requests)
}

/// So many times the frame without a tag.
fn untagged(alloc: Global) -> Result<Vec<&'static [u8]>, AllocError> {
    let mut frames = Vec::new(alloc);
    for _ in 0..FRAMES {
        frames.push(UNTAGGED.as_slice())?;
    }
    Ok(frames)
}

/// Whether the frame without a tag leaves as it came, by a GEM port.
fn leaves_by(verdict: &Verdict<'_>, port: u64) -> bool {
    match verdict {
        Verdict::Forward { gem, frame } => {
            u64::from(*gem) == port
                && frame.addresses() == &UNTAGGED[..12]
                && frame.tags().is_empty()
                && frame.rest() == &UNTAGGED[12..]
        }
        Verdict::Drop(_) => false,
    }
}

/// Whether all frames of a report leave by the GEM port of its version.
fn is_of_its_version(report: &Report<'_>) -> bool {
    if report.version < 4 || report.verdicts.len() != FRAMES {
        return false;
    }
    let port = report.version.saturating_add(1020);
    for verdict in &report.verdicts {
        if !leaves_by(verdict, port) {
            return false;
        }
    }
    true
}

/// The first report, by lane, batch and version, in which a frame leaves otherwise.
fn first_other(lanes: &[Vec<Report<'_>>]) -> Option<(u16, u32, u64)> {
    for reports in lanes {
        for report in reports {
            if !is_of_its_version(report) {
                return Some((report.lane, report.batch, report.version));
            }
        }
    }
    None
}

/// How many lanes a storm had, the version that was told last, a report that is wrong by the version alone, and what is wrong by
/// the plain walk.
type Outcome = (usize, u64, Option<(u16, u32, u64)>, Result<(), Wrong>);

/// The storm in which one GEM port is set again and again.
fn fixed_storm<R: Threads + Wait + Abort + Sync>(rt: &R, alloc: Global, lanes: u16) -> Outcome {
    let lists = [untagged(alloc).expect(rt, "frames")];
    let first = set_up(alloc).expect(rt, "requests");
    let beside = sets(alloc).expect(rt, "requests");
    let storm = Storm {
        alloc,
        first: &first,
        beside: &beside,
        ports: &PORTS[..1],
        lists: &lists,
        batches: BATCHES,
        sent: AtomicU64::new(0),
    };
    let ran = run(rt, lanes, &storm).expect(rt, "a storm");
    (
        ran.lanes.len(),
        ran.told,
        first_other(&ran.lanes),
        check(rt, &storm, &ran),
    )
}

/// A storm of drawn messages and frames: how many lanes it had, and what is wrong.
fn drawn_storm<R: Threads + Wait + Abort + Sync>(
    rt: &R,
    alloc: Global,
    lanes: u16,
) -> (usize, Result<(), Wrong>) {
    let drawn = Drawn::next(alloc, &mut Draws::new()).expect(rt, "what is drawn");
    let lists = drawn.frames(alloc).expect(rt, "frames");
    let storm = Storm {
        alloc,
        first: &[],
        beside: &drawn.requests,
        ports: &PORTS,
        lists: &lists,
        batches: BATCHES,
        sent: AtomicU64::new(0),
    };
    let ran = run(rt, lanes, &storm).expect(rt, "a storm");
    (ran.lanes.len(), check(rt, &storm, &ran))
}

#[test]
fn frames_leave_by_the_gem_port_of_their_version(rt: HostRuntime) {
    for lanes in [1u16, 4, 16] {
        same!(rt;
            fixed_storm(&rt, rt.alloc(), lanes),
            (usize::from(lanes), 1_004, None, Ok(())),
            "{lanes} lanes"
        );
    }
}

#[test]
fn verdicts_are_those_of_the_plain_walk_at_their_version(rt: HostRuntime) {
    for lanes in [1u16, 4, 16] {
        same!(rt;
            drawn_storm(&rt, rt.alloc(), lanes),
            (usize::from(lanes), Ok(())),
            "{lanes} lanes"
        );
    }
}
