//! Frames in batches, and their reports gathered.
use crate::counts::{are_counts, are_of_both, counts_of_both};
use crate::forwarding::{Became, what_became};
use crate::memory::Memory;
use crate::seen::{REFUSED_AGAIN, Seen, must, report};
use forward_plan::{Reason, Verdict};
use frame_batch::{
    Batch, BatchFault, Gate, GatherFault, Gathered, GatheredTallies, Report, Tally, forward_all,
    gather, gather_tallies, gather_versions, run_batch, run_batch_into,
};
use plan_publish::Held;
use std::thread::Threads;
use test_draws::UNTAGGED;

/// A frame that is too short.
const RUNT: [u8; 2] = [2, 0];

/// The frames of a batch.
const FRAMES: [&[u8]; 3] = [&UNTAGGED, &RUNT, &UNTAGGED];

/// So many frames are cut into pieces.
const MANY: usize = 4_200;

/// Lets each batch pass.
struct Open;

impl Gate for Open {
    fn pass(&self, _lane: u16, _batch: u32, _turns: u32) -> bool {
        true
    }
}

/// Whether these are the verdicts on the frames.
fn are_verdicts(verdicts: &[Verdict<'_>]) -> bool {
    match verdicts {
        [first, Verdict::Drop(Reason::Runt), last] => {
            what_became(first) == Became::Tagged && what_became(last) == Became::Tagged
        }
        _ => false,
    }
}

/// The verdicts on the frames, asked for again where there was no memory.
fn verdicts_of<R: Threads + Sync>(
    rt: &R,
    memory: &Memory,
    held: &Held<'_>,
) -> Result<Vec<Verdict<'static>>, BatchFault> {
    match forward_all(rt, memory.first(), held, 257, &FRAMES) {
        Err(BatchFault::NoMemory) => forward_all(rt, memory.again(), held, 257, &FRAMES),
        verdicts => verdicts,
    }
}

/// The verdicts on many frames, asked for again where there was no memory.
fn verdicts_of_many<R: Threads + Sync>(
    rt: &R,
    memory: &Memory,
    held: &Held<'_>,
) -> Result<Vec<Verdict<'static>>, BatchFault> {
    let frames: [&'static [u8]; MANY] = [&UNTAGGED; MANY];
    match forward_all(rt, memory.first(), held, 257, &frames) {
        Err(BatchFault::NoMemory) => forward_all(rt, memory.again(), held, 257, &frames),
        verdicts => verdicts,
    }
}

/// Whether each of many frames leaves with the tag.
fn are_verdicts_of_many(verdicts: &[Verdict<'_>]) -> bool {
    for verdict in verdicts {
        if what_became(verdict) != Became::Tagged {
            return false;
        }
    }
    verdicts.len() == MANY
}

/// The report of a batch, which is run again where there was no memory.
fn report_of(memory: &Memory, held: &Held<'_>, number: u32) -> Result<Report<'static>, BatchFault> {
    let batch = Batch {
        number,
        port: 257,
        frames: &FRAMES,
    };
    match run_batch(memory.first(), held, batch, 1, &Open) {
        Err(BatchFault::NoMemory) => run_batch(memory.again(), held, batch, 1, &Open),
        report => report,
    }
}

/// Puts a batch into a report, again where there was no memory, which leaves it without verdicts. Then its tally, asked for likewise.
fn run_into(memory: &Memory, held: &Held<'_>, report: &mut Report<'static>, number: u32) -> Seen {
    let batch = Batch {
        number,
        port: 257,
        frames: &FRAMES,
    };
    match run_batch_into(report, held, batch, 1, &Open) {
        Ok(()) => {}
        Err(BatchFault::NoMemory) => {
            must(report.verdicts.is_empty(), "verdicts without memory")?;
            memory.again();
            let done = run_batch_into(report, held, batch, 1, &Open);
            must(done.is_ok(), REFUSED_AGAIN)?;
        }
        Err(_) => return Err("another fault"),
    }
    must(is_report(report, number), "another report")?;
    let tally = match report.copy_tally(memory.first()) {
        Err(_) => report.copy_tally(memory.again()),
        tally => tally,
    };
    let Ok(tally) = tally else {
        return Err(REFUSED_AGAIN);
    };
    let same = tally.batch == number && tally.version == 5 && are_counts(&tally.counts, 1);
    must(same, "another tally")
}

/// Whether it is the report of a batch of this number.
fn is_report(report: &Report<'_>, batch: u32) -> bool {
    report.batch == batch
        && report.version == 5
        && are_verdicts(&report.verdicts)
        && are_counts(&report.counts, 1)
}

/// Room for two, asked for again where there was no memory.
fn room_for_two<T>(memory: &Memory) -> Result<Vec<T>, GatherFault> {
    match Vec::with_capacity(memory.first(), 2) {
        Ok(room) => Ok(room),
        Err(_) => Vec::with_capacity(memory.again(), 2).map_err(|_| GatherFault::NoMemory),
    }
}

/// The reports of batches 1 and 0, gathered.
fn gathered(memory: &Memory, held: &Held<'_>) -> Result<Gathered<'static>, GatherFault> {
    let mut reports = room_for_two(memory)?;
    for batch in [1, 0] {
        if let Ok(report) = report_of(memory, held, batch) {
            let _ = reports.push(report);
        }
    }
    gather(memory.first(), reports, 2)
}

/// The tallies of batches 1 and 0, as if the frames of each had left by both ports of one place.
fn two_tallies(memory: &Memory, held: &Held<'_>) -> Result<Vec<Tally>, GatherFault> {
    let mut tallies = room_for_two(memory)?;
    for batch in [1, 0] {
        let (report, counts) = (report_of(memory, held, batch), counts_of_both(memory));
        if let (Ok(report), Ok(counts)) = (report, counts) {
            let _ = tallies.push(Tally {
                lane: report.lane,
                batch,
                version: report.version,
                counts,
            });
        }
    }
    Ok(tallies)
}

/// They are gathered.
fn tallied(memory: &Memory, held: &Held<'_>) -> Result<GatheredTallies, GatherFault> {
    gather_tallies(memory.first(), two_tallies(memory, held)?, 2)
}

/// Whether it is the tally of a batch of this number.
fn is_tally(tally: &Tally, batch: u32) -> bool {
    tally.batch == batch && tally.version == 5 && are_of_both(&tally.counts, 1)
}

fn call_forward_all<R: Threads + Sync>(rt: &R, memory: &Memory, held: &Held<'_>) -> Seen {
    match verdicts_of(rt, memory, held) {
        Ok(verdicts) => must(are_verdicts(&verdicts), "other verdicts"),
        Err(_) => Err(REFUSED_AGAIN),
    }
}

fn call_forward_pieces<R: Threads + Sync>(rt: &R, memory: &Memory, held: &Held<'_>) -> Seen {
    match verdicts_of_many(rt, memory, held) {
        Ok(verdicts) => must(are_verdicts_of_many(&verdicts), "other verdicts"),
        Err(_) => Err(REFUSED_AGAIN),
    }
}

fn call_run_batch(memory: &Memory, held: &Held<'_>) -> Seen {
    match report_of(memory, held, 7) {
        Ok(report) => must(is_report(&report, 7), "another report"),
        Err(_) => Err(REFUSED_AGAIN),
    }
}

fn call_run_batch_into(memory: &Memory, held: &Held<'_>) -> Seen {
    let mut report = Report::empty(memory.first());
    run_into(memory, held, &mut report, 7)?;
    run_into(memory, held, &mut report, 8)
}

fn call_gather(memory: &Memory, held: &Held<'_>) -> Seen {
    let all = match gathered(memory, held) {
        Err(GatherFault::NoMemory) => {
            memory.again();
            gathered(memory, held)
        }
        all => all,
    };
    let Ok(all) = all else {
        return Err(REFUSED_AGAIN);
    };
    let in_order = match all.reports.as_slice() {
        [first, second] => is_report(first, 0) && is_report(second, 1),
        _ => false,
    };
    must(in_order && are_counts(&all.counts, 2), "other reports")
}

fn call_gather_tallies(memory: &Memory, held: &Held<'_>) -> Seen {
    let all = match tallied(memory, held) {
        Err(GatherFault::NoMemory) => {
            memory.again();
            tallied(memory, held)
        }
        all => all,
    };
    let Ok(all) = all else {
        return Err(REFUSED_AGAIN);
    };
    let in_order = match all.tallies.as_slice() {
        [first, second] => is_tally(first, 0) && is_tally(second, 1),
        _ => false,
    };
    must(in_order && are_of_both(&all.counts, 2), "other tallies")
}

/// Their versions, asked for again where there was no memory: the tallies stay.
fn call_gather_versions(memory: &Memory, held: &Held<'_>) -> Seen {
    let Ok(tallies) = two_tallies(memory, held) else {
        return Err(REFUSED_AGAIN);
    };
    let all = match gather_versions(memory.first(), &tallies, 2) {
        Err(GatherFault::NoMemory) => gather_versions(memory.again(), &tallies, 2),
        all => all,
    };
    match all {
        Ok(all) => must(
            all.versions.as_slice() == [5, 5].as_slice() && are_of_both(&all.counts, 2),
            "other versions",
        ),
        Err(_) => Err(REFUSED_AGAIN),
    }
}

pub(crate) fn make_calls<R: Threads + Sync + Print>(rt: &R, memory: &Memory, held: &Held<'_>) {
    report(
        rt,
        memory,
        "forward_all",
        call_forward_all(rt, memory, held),
    );
    report(
        rt,
        memory,
        "forward_all in pieces",
        call_forward_pieces(rt, memory, held),
    );
    report(rt, memory, "run_batch", call_run_batch(memory, held));
    report(
        rt,
        memory,
        "run_batch_into",
        call_run_batch_into(memory, held),
    );
    report(rt, memory, "gather", call_gather(memory, held));
    report(
        rt,
        memory,
        "gather_tallies",
        call_gather_tallies(memory, held),
    );
    report(
        rt,
        memory,
        "gather_versions",
        call_gather_versions(memory, held),
    );
}
