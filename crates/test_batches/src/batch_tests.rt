//! Batches of frames, on one thread or many, and their reports gathered.
use forward_plan::{Reason, Verdict};
use frame_batch::{
    Batch, BatchFault, Gate, GatherFault, Report, Tally, forward_all, gather, gather_tallies,
    gather_versions, law_of_arrival, run_batch, run_batch_into,
};
use frame_stats::{Counts, count_of};
use plan_publish::{Control, Held, Lane, open};
use std::alloc::Global;
use std::process::Abort;
use std::sync::Wait;
use std::sync::atomic::{AtomicU64, Ordering};
use std::thread::{Threads, join, yield_now};
use test_draws::{PORT_257, UNTAGGED, message};
use test_fixtures::{holds, same};

/// A frame that is cut in its tag.
const CUT: [u8; 14] = [2, 0, 0, 0, 0, 1, 2, 0, 0, 0, 0, 2, 0x81, 0];

/// A frame that is too short.
const SHORT: [u8; 13] = [2, 0, 0, 0, 0, 1, 2, 0, 0, 0, 0, 2, 8];

/// Whether a frame leaves by GEM port 1024, with its addresses and rest as they were and a tag of VID 100.
fn is_tagged(verdict: &Verdict<'_>) -> bool {
    match verdict {
        Verdict::Forward { gem: 1024, frame } => {
            let tagged = match frame.tags() {
                [tag] => tag.bytes() == [0x81, 0, 0, 0x64],
                _ => false,
            };
            tagged && frame.addresses() == &UNTAGGED[..12] && frame.rest() == &UNTAGGED[12..]
        }
        _ => false,
    }
}

/// How many verdicts are of tagged frames.
fn tagged(verdicts: &[Verdict<'_>]) -> usize {
    let mut count = 0usize;
    for verdict in verdicts {
        if is_tagged(verdict) {
            count = count.saturating_add(1);
        }
    }
    count
}

/// Whether counts show these figures, and GEM port 1024 with this many frames and its neighbours with none.
fn show(counts: &Counts, frames: u64, bytes: u64, drops: [u64; 9], of_1024: u64) -> bool {
    counts.frames == frames
        && counts.bytes == bytes
        && counts.drops == drops
        && counts.ports.frames(1023) == 0
        && counts.ports.frames(1024) == of_1024
        && counts.ports.frames(1025) == 0
}

/// Lets every batch pass.
#[derive(Drop)]
struct Open;

impl Gate for Open {
    ghost use Rattle.std.specs.Prelude.{◌≡◌, true};

    ghost may_answer = { λ _ _ _ _ answer. answer ≡ true };

    fn pass(&self, _lane: u16, _batch: u32, _turns: u32) -> bool {
        true
    }
}

/// Lets a lane's batch pass once the other lane has come too.
#[derive(Drop)]
struct Meeting {
    flags: [AtomicU64; 2],
}

impl Gate for Meeting {
    fn pass(&self, lane: u16, _batch: u32, turns: u32) -> bool {
        let own = usize::from(lane % 2);
        self.flags[own].store(1, Ordering::SeqCst);
        for _ in 0..turns {
            if self.flags[1 - own].load(Ordering::SeqCst) == 1 {
                return true;
            }
            yield_now();
        }
        false
    }
}

/// The frames of batch 0, which are tagged.
const WHOLE: [&[u8]; 2] = [&UNTAGGED, &UNTAGGED];

/// The frame of any other batch, which is cut.
const BEHIND: [&[u8]; 1] = [&CUT];

/// A batch of this number.
fn batch_of(number: u32) -> Batch<'static, 'static> {
    let frames = if number == 0 {
        WHOLE.as_slice()
    } else {
        BEHIND.as_slice()
    };
    Batch {
        number,
        port: 257,
        frames,
    }
}

/// The report of a batch of this number.
fn report_of(alloc: Global, held: &Held<'_>, number: u32) -> Result<Report<'static>, BatchFault> {
    run_batch(alloc, held, batch_of(number), 1, &Open)
}

/// What gathering versions gives: how many there are, and whether each is 5 and the counts are those of the frames.
type Outcome = Result<(usize, bool), GatherFault>;

/// The reports of batches of these numbers.
fn reports_of(
    rt: &impl Abort,
    alloc: Global,
    held: &Held<'_>,
    batches: &[u32],
) -> Vec<Report<'static>> {
    let mut reports = Vec::new(alloc);
    for batch in batches {
        let report = report_of(alloc, held, *batch).expect(rt, "a report");
        reports.push(report).ok().expect(rt, "memory");
    }
    reports
}

/// The tallies of reports.
fn tallies_of(rt: &impl Abort, alloc: Global, reports: Vec<Report<'_>>) -> Vec<Tally> {
    let mut tallies = Vec::new(alloc);
    for report in reports {
        tallies.push(report.tally()).ok().expect(rt, "memory");
    }
    tallies
}

/// What gathering the versions of tallies gives.
fn versions_gathered(alloc: Global, tallies: &[Tally], count: u32) -> Outcome {
    let all = gather_versions(alloc, tallies, count)?;
    let number = all.versions.len();
    let mut same = counted(number, &all.counts);
    for version in &all.versions {
        same = same && *version == 5;
    }
    Ok((number, same))
}

/// The number of the first tally that isn't in its place, or how many there are.
fn places(tallies: &[Tally]) -> u32 {
    let mut place = 0u32;
    for tally in tallies {
        if !is_tally(tally, place) {
            return place;
        }
        place = place.wrapping_add(1);
    }
    place
}

/// Reports of a case, and their tallies, are gathered as they have to be.
fn gather_case(rt: &impl Abort, alloc: Global, held: &Held<'_>, case: &Case) {
    let (what, batches, count, expected) = *case;
    let gathered = gather(alloc, reports_of(rt, alloc, held, batches), count);
    let found = gathered.map(|all| {
        let number = all.reports.len();
        let is_counted = counted(number, &all.counts);
        let tallies = tallies_of(rt, alloc, all.reports);
        (number, is_counted && places(&tallies) as usize == number)
    });
    same!(rt; found, expected, "{what}");
    let tallies = tallies_of(rt, alloc, reports_of(rt, alloc, held, batches));
    same!(rt; versions_gathered(alloc, &tallies, count), expected, "{what}, versions");
    let gathered = gather_tallies(alloc, tallies, count);
    let found = gathered.map(|all| {
        let number = all.tallies.len();
        (
            number,
            counted(number, &all.counts) && places(&all.tallies) as usize == number,
        )
    });
    same!(rt; found, expected, "{what}, tallies");
}

/// Whether counts are those of a batch of this number.
fn are_of_batch(counts: &Counts, number: u32) -> bool {
    if number == 0 {
        show(counts, 2, 40, [0; 9], 2)
    } else {
        show(counts, 1, 0, [0, 1, 0, 0, 0, 0, 0, 0, 0], 0)
    }
}

/// Whether it is the tally of a batch of this number.
fn is_tally(tally: &Tally, number: u32) -> bool {
    tally.batch == number
        && tally.version == 5
        && tally.lane == 0
        && are_of_batch(&tally.counts, number)
}

/// Whether these are the counts of so many batches: of batch 0 with two tagged frames, and others with a cut one.
fn counted(batches: usize, counts: &Counts) -> bool {
    if batches == 0 {
        return show(counts, 0, 0, [0; 9], 0);
    }
    let cut = (batches - 1) as u64;
    show(
        counts,
        cut.saturating_add(2),
        40,
        [0, cut, 0, 0, 0, 0, 0, 0, 0],
        2,
    )
}

/// Puts a batch into a report that another lane may have had; its verdicts, and its tally, are those of the batch.
fn run_into(
    rt: &impl Abort,
    alloc: Global,
    held: &Held<'_>,
    report: &mut Report<'static>,
    number: u32,
) {
    let batch = batch_of(number);
    let many = batch.frames.len();
    let done = run_batch_into(report, held, batch, 1, &Open);
    same!(rt; done, Ok(()), "batch {number}");
    same!(rt; report.verdicts.len(), many, "verdicts of batch {number}");
    let tally = report.copy_tally(alloc).ok().expect(rt, "a tally");
    holds!(rt; is_tally(&tally, number), "the tally of batch {number}");
    holds!(rt; are_of_batch(&report.counts, number), "the counts of batch {number}");
}

/// Puts one batch after another into a report. One with a frame too many leaves it as it was.
fn fill_a_report(rt: &impl Abort, alloc: Global, held: &Held<'_>) {
    let mut report = Report::empty(alloc);
    same!(rt; report.verdicts.len(), 0);
    for number in [1, 0, 2, 0] {
        run_into(rt, alloc, held, &mut report, number);
    }
    let frames = repeated(rt, alloc, &CUT, 65_537);
    let more = Batch {
        number: 9,
        port: 257,
        frames: &frames,
    };
    let done = run_batch_into(&mut report, held, more, 1, &Open);
    same!(rt; done, Err(BatchFault::TooMany(65_537)));
    same!(rt; report.batch, 0);
    holds!(rt; are_of_batch(&report.counts, 0), "the report is as it was");
}

/// So many times the same frame.
fn repeated<'f>(rt: &impl Abort, alloc: Global, frame: &'f [u8], times: usize) -> Vec<&'f [u8]> {
    let mut frames = Vec::new(alloc);
    for _ in 0..times {
        frames.push(frame).ok().expect(rt, "memory");
    }
    frames
}

/// Whether a runt is dropped between two frames that are tagged.
fn has_runt_between(verdicts: &[Verdict<'_>]) -> bool {
    match verdicts {
        [first, Verdict::Drop(Reason::Runt), last] => is_tagged(first) && is_tagged(last),
        _ => false,
    }
}

/// Lists of frames: with a runt between two, none, the longest that there may be, and one frame more.
fn forward_lists<R: Wait + Threads + Abort + Sync>(rt: &R, alloc: Global, held: &Held<'_>) {
    let short = [UNTAGGED.as_slice(), SHORT.as_slice(), UNTAGGED.as_slice()];
    let verdicts = forward_all(rt, alloc, held, 257, &short).expect(rt, "verdicts");
    holds!(rt; has_runt_between(&verdicts), "a runt between two frames");
    let none = forward_all(rt, alloc, held, 257, &[]).expect(rt, "verdicts");
    holds!(rt; none.is_empty());
    let mut frames = repeated(rt, alloc, &UNTAGGED, 65_536);
    forward_most(rt, alloc, held, &frames);
    frames.push(&UNTAGGED).ok().expect(rt, "memory");
    let fault = forward_all(rt, alloc, held, 257, &frames).err();
    same!(rt; fault, Some(BatchFault::TooMany(65_537)));
}

/// As many frames as a batch may have, and their counts.
fn forward_most<R: Wait + Threads + Abort + Sync>(
    rt: &R,
    alloc: Global,
    held: &Held<'_>,
    frames: &[&[u8]],
) {
    let verdicts = forward_all(rt, alloc, held, 257, frames).expect(rt, "verdicts");
    same!(rt; (verdicts.len(), tagged(&verdicts)), (65_536, 65_536));
    let counts = count_of(alloc, &verdicts).expect(rt, "counts");
    holds!(rt; show(&counts, 65_536, 1_310_720, [0; 9], 65_536), "counts");
}

/// A case by its name.
type Case = (&'static str, &'static [u32], u32, Outcome);

/// The numbers of batches that are gathered, how many there should be, and what comes of it: how many, and whether in order.
const CASES: [Case; 16] = [
    ("both", &[1, 0], 2, Ok((2, true))),
    ("one twice", &[0, 0], 2, Err(GatherFault::Double(0))),
    ("one too high", &[0, 2], 2, Err(GatherFault::Stranger(2))),
    ("the first missing", &[1], 2, Err(GatherFault::Missing(0))),
    ("none of none", &[], 0, Ok((0, true))),
    (
        "too high, then twice",
        &[2, 0, 0],
        2,
        Err(GatherFault::Stranger(2)),
    ),
    (
        "twice, then too high",
        &[0, 0, 2],
        2,
        Err(GatherFault::Double(0)),
    ),
    (
        "too high and missing",
        &[0, 3],
        3,
        Err(GatherFault::Stranger(3)),
    ),
    ("two missing", &[2], 3, Err(GatherFault::Missing(0))),
    ("one of none", &[0], 0, Err(GatherFault::Stranger(0))),
    ("0, 1, 2", &[0, 1, 2], 3, Ok((3, true))),
    ("0, 2, 1", &[0, 2, 1], 3, Ok((3, true))),
    ("1, 0, 2", &[1, 0, 2], 3, Ok((3, true))),
    ("1, 2, 0", &[1, 2, 0], 3, Ok((3, true))),
    ("2, 0, 1", &[2, 0, 1], 3, Ok((3, true))),
    ("2, 1, 0", &[2, 1, 0], 3, Ok((3, true))),
];

/// Reports, and their tallies, in every order, twice, of no batch and missing.
fn gather_reports(rt: &impl Abort, alloc: Global, held: &Held<'_>) {
    for case in &CASES {
        gather_case(rt, alloc, held, case);
    }
}

/// The lane that a batch was run by, or why it wasn't.
fn meet(
    alloc: Global,
    mut lane: Lane,
    gate: &Meeting,
    turns: u32,
) -> Option<Result<u16, BatchFault>> {
    let held = lane.enter()?;
    let frames = [UNTAGGED.as_slice()];
    let batch = Batch {
        number: 7,
        port: 257,
        frames: &frames,
    };
    match run_batch(alloc, &held, batch, turns, gate) {
        Ok(report) => {
            let whole = report.batch == 7 && report.version == 5 && tagged(&report.verdicts) == 1;
            if whole && show(&report.counts, 1, 20, [0; 9], 1) {
                Some(Ok(report.lane))
            } else {
                None
            }
        }
        Err(fault) => Some(Err(fault)),
    }
}

/// What is done with two lanes.
#[derive(Clone, Copy)]
enum Scene {
    ForwardLists,
    GatherReports,
    FillReport,
    MeetOnThreads,
    MeetInTurn,
}

/// Plays a scene by what a lane that may enter version 5 holds.
fn with_held<R: Wait + Threads + Abort + Sync>(
    rt: &R,
    alloc: Global,
    lane: &mut Lane,
    scene: Scene,
) {
    let held = lane.enter().expect(rt, "the lane may enter");
    match scene {
        Scene::ForwardLists => forward_lists(rt, alloc, &held),
        Scene::GatherReports => gather_reports(rt, alloc, &held),
        _ => fill_a_report(rt, alloc, &held),
    }
}

/// Two lanes that may enter version 5 meet on two threads.
fn meet_on_threads<R: Wait + Threads + Abort + Sync>(
    rt: &R,
    alloc: Global,
    zero: Lane,
    one: Lane,
    gate: &Meeting,
) {
    let (first, second) = join(
        rt,
        move || meet(alloc, zero, gate, 10_000_000),
        move || meet(alloc, one, gate, 10_000_000),
    );
    same!(rt; (first, second), (Some(Ok(0)), Some(Ok(1))));
}

/// Two lanes that may enter version 5 forward one after the other: the first waits for the second in vain.
fn meet_in_turn(rt: &impl Abort, alloc: Global, zero: Lane, one: Lane, gate: &Meeting) {
    let first = meet(alloc, zero, gate, 1_000);
    let second = meet(alloc, one, gate, 1_000);
    same!(rt; first, Some(Err(BatchFault::Stalled)));
    same!(rt; second, Some(Ok(1)));
}

/// Plays a scene with two lanes that may enter version 5.
fn with_lanes<R: Wait + Threads + Abort + Sync>(
    rt: &R,
    alloc: Global,
    mut zero: Lane,
    one: Lane,
    scene: Scene,
) {
    let flags = [AtomicU64::new(0), AtomicU64::new(0)];
    let gate = Meeting { flags };
    match scene {
        Scene::MeetOnThreads => meet_on_threads(rt, alloc, zero, one, &gate),
        Scene::MeetInTurn => meet_in_turn(rt, alloc, zero, one, &gate),
        _ => with_held(rt, alloc, &mut zero, scene),
    }
}

/// Makes port 257, and publishes that as version 5.
fn publish_5<R: Wait + Threads + Abort + Sync>(rt: &R, control: &mut Control) {
    for digits in &PORT_257 {
        let answer = control.message(&message(digits));
        holds!(rt; matches!(answer, Ok(Some(_))), "{digits}");
    }
    same!(rt; control.publish(rt).version(), 5);
}

/// Opens a control with two lanes, publishes version 5, and plays a scene.
fn play<R: Wait + Threads + Abort + Sync>(rt: &R, alloc: Global, scene: Scene) {
    let (mut control, mut lanes) = open(rt, alloc, 2).expect(rt, "a control");
    publish_5(rt, &mut control);
    let one = lanes.pop().expect(rt, "lane 1");
    let zero = lanes.pop().expect(rt, "lane 0");
    with_lanes(rt, alloc, zero, one, scene);
    control.close(rt);
}

#[test]
fn lists_are_forwarded_in_order(rt: HostRuntime) {
    play(&rt, rt.alloc(), Scene::ForwardLists);
}

#[test]
fn reports_are_gathered_in_every_order(rt: HostRuntime) {
    play(&rt, rt.alloc(), Scene::GatherReports);
}

#[test]
fn a_report_takes_one_batch_after_another(rt: HostRuntime) {
    play(&rt, rt.alloc(), Scene::FillReport);
}

#[test]
fn lanes_on_two_threads_meet(rt: HostRuntime) {
    play(&rt, rt.alloc(), Scene::MeetOnThreads);
}

#[test]
fn a_batch_that_the_gate_stops_is_stalled(rt: HostRuntime) {
    play(&rt, rt.alloc(), Scene::MeetInTurn);
}

#[test]
fn faults_have_their_numbers(rt: HostRuntime) {
    law_of_arrival();
    let of_batches = [
        BatchFault::TooMany(65_537).code(),
        BatchFault::NoMemory.code(),
        BatchFault::Stalled.code(),
        BatchFault::CountFull.code(),
    ];
    same!(rt; of_batches, [1, 2, 3, 4]);
    let of_gathering = [
        GatherFault::Double(0).code(),
        GatherFault::Stranger(0).code(),
        GatherFault::Missing(0).code(),
        GatherFault::NoMemory.code(),
        GatherFault::CountFull.code(),
    ];
    same!(rt; of_gathering, [1, 2, 3, 4, 5]);
}
