//! Runs beside their gates.
ghost use Rattle.std.specs.Prelude.{◌<◌, ◌≤◌, ◌^◌, length};
ghost use Rattle.run_settings.specs.Settings.{CanRun};

use frame_batch::Gate;
use frame_stats::Counts;
use run_lanes::{LaneFault, Ran, RunInput, run_lanes};
use run_settings::RunSettings;
use script_trace::read_requests;
use std::alloc::Global;
use std::sync::Wait;
use std::sync::atomic::{AtomicU64, Ordering};
use std::test::Fail;
use std::thread::{Threads, yield_now};
use test_draws::UNTAGGED;
use test_fixtures::holds;

/// How often a gate looks for what it waits for.
const TURNS: u32 = 10_000_000;

/// What makes port 257: a GEM port network CTP with port-ID 1024, an interworking point, a mapper of the port, and a table of it.
const PORT_257: &str = concat!(
    "o 0001440a010c040104008001030000000000000000000000000000000000000000000000000000000000002800000000\n",
    "o 0002440a010a050104010506010000000000000000000000000000000000000000000000000000000000002800000000\n",
    "o 0003440a0082060101010501050105010501050105010501050101000100000000000000000000000000002800000000\n",
    "o 0004440a00ab070102010100000000000000000000000000000000000000000000000000000000000000002800000000\n",
);

/// Lets everything pass.
#[derive(Drop)]
struct Open;

impl Gate for Open {
    fn pass(&self, _lane: u16, _batch: u32, _turns: u32) -> bool {
        yield_now();
        true
    }
}

/// Lets nothing pass.
#[derive(Drop)]
struct Closed;

impl Gate for Closed {
    fn pass(&self, _lane: u16, _batch: u32, _turns: u32) -> bool {
        false
    }
}

/// Whether a word comes to be this number or more.
fn reaches(word: &AtomicU64, least: u64, turns: u32) -> bool {
    for _ in 0..turns {
        if word.load(Ordering::SeqCst) >= least {
            return true;
        }
        yield_now();
    }
    false
}

/// Lets each of two lanes pass once the other has come too.
#[derive(Drop)]
struct Meeting {
    flags: [AtomicU64; 2],
}

impl Gate for Meeting {
    fn pass(&self, lane: u16, _batch: u32, turns: u32) -> bool {
        let own = usize::from(lane % 2);
        self.flags[own].store(1, Ordering::SeqCst);
        reaches(&self.flags[1 - own], 1, turns)
    }
}

/// Lets the one lane's batch k pass once the control has published version k, and the control go on from version k, below 4, once
/// the lane has come with batch k + 1.
#[derive(Drop)]
struct InStep {
    batch: AtomicU64,
    version: AtomicU64,
}

impl Gate for InStep {
    fn pass(&self, lane: u16, batch: u32, turns: u32) -> bool {
        let k = u64::from(batch);
        if lane == 0 {
            self.batch.store(k, Ordering::SeqCst);
            return reaches(&self.version, k, turns);
        }
        self.version.store(k, Ordering::SeqCst);
        k >= 4 || reaches(&self.batch, k.saturating_add(1), turns)
    }
}

/// What is expected of a run.
#[derive(Clone, Copy)]
struct Expected {
    accepted: u64,
    frames: u64,
    bytes: u64,
    drops: [u64; 9],
    of_1024: u64,
}

/// Nothing at all.
const NOTHING: Expected = Expected {
    accepted: 0,
    frames: 0,
    bytes: 0,
    drops: [0; 9],
    of_1024: 0,
};

/// Whether counts are as expected, with no port but 1024.
fn show(counts: &Counts, expected: &Expected) -> bool {
    counts.frames == expected.frames
        && counts.bytes == expected.bytes
        && counts.drops == expected.drops
        && counts.ports.frames(1024) == expected.of_1024
        && counts.ports.frames(1025) == 0
}

/// Whether a run is as expected, by its own counts and by those that the lanes noted.
fn is_as(ran: &Ran, expected: &Expected) -> bool {
    ran.accepted == expected.accepted
        && show(&ran.counts, expected)
        && show(ran.book.total(), expected)
}

/// A run, and what it is expected to give.
#[derive(Drop)]
struct Case<'c> {
    trace: &'c str,
    frames: &'c [&'c [u8]],
    settings: RunSettings,
    expected: Expected,
}

/// Runs the requests of a trace.
fn run<G: Gate + Sync, R: Threads + Wait + Sync>(
    rt: &R,
    alloc: Global,
    case: &Case<'_>,
    gate: &G,
) -> Result<Ran, LaneFault>
    requires settings { CanRun case.now.settings }
    requires frames { length case.now.frames.now < 2 ^ 32 }
{
    let Ok(requests) = read_requests(alloc, case.trace.as_bytes()) else {
        return Err(LaneFault::NoMemory);
    };
    let input = RunInput {
        requests: &requests,
        frames: case.frames,
        settings: &case.settings,
    };
    run_lanes(rt, alloc, &input, TURNS, gate)
}

/// Runs, and tells the versions if all else is as expected.
fn versions_of<G: Gate + Sync, R: Threads + Wait + Sync>(
    rt: &R,
    alloc: Global,
    case: &Case<'_>,
    gate: &G,
) -> Result<Option<Vec<u64>>, LaneFault>
    requires settings { CanRun case.now.settings }
    requires frames { length case.now.frames.now < 2 ^ 32 }
{
    let ran = run(rt, alloc, case, gate)?;
    if is_as(&ran, &case.expected) {
        return Ok(Some(ran.versions));
    }
    Ok(None)
}

/// Whether a run's versions, from a place on, are these.
fn are(found: &Result<Option<Vec<u64>>, LaneFault>, from: usize, versions: &[u64]) -> bool {
    match found {
        Ok(Some(all)) => all.get(from..) == Some(versions),
        _ => false,
    }
}

#[test]
fn two_lanes_forward_at_once(rt: HostRuntime) -> Result<(), Fail> {
    let settings = RunSettings {
        port: 257,
        lanes: 2,
        batch: 1,
        after: false,
    };
    let gate = Meeting {
        flags: [AtomicU64::new(0), AtomicU64::new(0)],
    };
    let frames = [UNTAGGED.as_slice(), UNTAGGED.as_slice()];
    let expected = Expected {
        frames: 2,
        drops: [0, 0, 0, 0, 2, 0, 0, 0, 0],
        ..NOTHING
    };
    let case = Case {
        trace: "",
        frames: &frames,
        settings,
        expected,
    };
    let found = versions_of(&rt, rt.alloc(), &case, &gate);
    holds!(rt; are(&found, 0, &[0, 0]));
    Ok(())
}

#[test]
fn each_batch_has_the_version_that_was_published_before_it(rt: HostRuntime) -> Result<(), Fail> {
    let settings = RunSettings {
        port: 257,
        lanes: 1,
        batch: 1,
        after: false,
    };
    let gate = InStep {
        batch: AtomicU64::new(0),
        version: AtomicU64::new(0),
    };
    let frames = [UNTAGGED.as_slice(); 5];
    let expected = Expected {
        accepted: 4,
        frames: 5,
        bytes: 32,
        drops: [0, 0, 0, 0, 3, 0, 0, 0, 0],
        of_1024: 2,
    };
    let case = Case {
        trace: PORT_257,
        frames: &frames,
        settings,
        expected,
    };
    let found = versions_of(&rt, rt.alloc(), &case, &gate);
    // Batch 0 waits for nothing, and may come before the first publish or after it.
    holds!(rt; are(&found, 1, &[1, 2, 3, 4]));
    Ok(())
}

/// Whether no version is less than that of the batch before it along its lane.
fn never_fall(versions: &[u64], lanes: usize) -> bool {
    for k in lanes..versions.len() {
        if versions[k] < versions[k - lanes] {
            return false;
        }
    }
    true
}

#[test]
fn versions_never_fall_along_a_lane(rt: HostRuntime) -> Result<(), Fail> {
    let settings = RunSettings {
        port: 257,
        lanes: 4,
        batch: 1,
        after: false,
    };
    let frames = [UNTAGGED.as_slice(); 400];
    let case = Case {
        trace: PORT_257,
        frames: &frames,
        settings,
        expected: NOTHING,
    };
    let held = match run(&rt, rt.alloc(), &case, &Open) {
        Ok(ran) => ran.versions.len() == 400 && never_fall(&ran.versions, 4),
        Err(_) => false,
    };
    holds!(rt; held);
    Ok(())
}

#[test]
fn a_gate_that_lets_nothing_pass_is_a_refusal(rt: HostRuntime) -> Result<(), Fail> {
    let settings = RunSettings {
        port: 257,
        lanes: 1,
        batch: 1,
        after: true,
    };
    let frames = [UNTAGGED.as_slice()];
    let case = Case {
        trace: "",
        frames: &frames,
        settings,
        expected: NOTHING,
    };
    let found = versions_of(&rt, rt.alloc(), &case, &Closed);
    holds!(rt; matches!(found, Err(LaneFault::Refused)));
    Ok(())
}
