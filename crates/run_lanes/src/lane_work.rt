//! What a lane does.
ghost use Rattle.std.specs.Prelude.{◌≡◌, ◌≤◌, Some, IfOk, IsErrOf, map};
ghost use Rattle.plan_publish.specs.Lane.{number_of, held_by, learnt_by, IsSameLane};
ghost use Rattle.capture_pieces.specs.Cut.{batch_of};
ghost use Rattle.run_settings.specs.Settings.{batch_limit};
ghost use Rattle.run_lanes.specs.Frames.{frames_in};
ghost use Rattle.run_lanes.specs.Work.{HasForwarded, HasPassed, IsOut, SomeBatchPasses, Worked};

use crate::fault::{LaneFault, forwarding};
use crate::frames::RunFrames;
use crate::job::Job;
use frame_batch::{Batch, Gate, Report, Tally, run_batch_into};
use frame_stats::{StatBook, StatFault};
use plan_publish::Lane;
use std::sync::{Mutex, Wait};

/// The batches of a lane, in ascending order: that of its own number, and from there each `lanes`-th. The lane enters once for each.
pub(crate) fn lane_batches<'a, G: Gate, R: Wait>(
    rt: &R,
    lane: &mut Lane,
    job: &Job<'_, 'a>,
    gate: &G,
) -> Result<Vec<Tally>, LaneFault>
    requires { IsOut lane.old }
    ensures same { IsSameLane lane.old lane.new }
    ensures worked { IfOk result (λ tallies. (held : _) × (held_by lane.new ≡ Some held)
        × Worked job.now.settings (frames_in job.now.frames) held (learnt_by lane.old)
        (number_of lane.old) tallies.items) }
    ensures full { IsErrOf result LaneFault.CountFull
        → SomeBatchPasses job.now.settings (frames_in job.now.frames) (learnt_by lane.old)
        lane.new }
{
    let mut tallies = Vec::new(job.alloc);
    let mut report = Report::empty(job.alloc);
    let mut k = u32::from(lane.number());
    while k < job.count {
        let tally = forward_batch(lane, job, k, gate, &mut report)?;
        note(rt, job.book, &tally)?;
        let Ok(()) = tallies.push(tally) else {
            return Err(LaneFault::NoMemory);
        };
        k = k.saturating_add(u32::from(job.settings.lanes));
    }
    Ok(tallies)
}

/// One batch. Where the capture is cut, the frames of the batch are listed before the gate is asked.
fn forward_batch<'a, G: Gate>(
    lane: &mut Lane,
    job: &Job<'_, 'a>,
    batch: u32,
    gate: &G,
    report: &mut Report<'a>,
) -> Result<Tally, LaneFault>
    ensures same { IsSameLane lane.old lane.new }
    ensures forwarded { IfOk result (λ tally. HasForwarded job.now.settings
        (frames_in job.now.frames) batch lane.old lane.new tally) }
    ensures full { IsErrOf result LaneFault.CountFull
        → HasPassed job.now.settings (frames_in job.now.frames) batch lane.old lane.new }
{
    match job.frames {
        RunFrames::Listed(list) => {
            let frames = listed_frames(list, job.settings.batch, batch);
            forward_frames(lane, job, batch, frames, gate, report)
        }
        RunFrames::Cut(batches) => match batches.frames_of(job.alloc, batch) {
            Ok(frames) => forward_frames(lane, job, batch, &frames, gate, report),
            Err(_) => Err(LaneFault::NoMemory),
        },
    }
}

/// The frames of a batch, for which the lane enters once. The gate is asked before too: a lane that waits in it holds nothing yet.
fn forward_frames<'a, G: Gate>(
    lane: &mut Lane,
    job: &Job<'_, 'a>,
    batch: u32,
    frames: &[&'a [u8]],
    gate: &G,
    report: &mut Report<'a>,
) -> Result<Tally, LaneFault>
    requires { map (λ frame. frame.now) frames.now
        ≡ batch_of job.now.settings.batch batch (frames_in job.now.frames) }
    ensures same { IsSameLane lane.old lane.new }
    ensures forwarded { IfOk result (λ tally. HasForwarded job.now.settings
        (frames_in job.now.frames) batch lane.old lane.new tally) }
    ensures full { IsErrOf result LaneFault.CountFull
        → HasPassed job.now.settings (frames_in job.now.frames) batch lane.old lane.new }
{
    if !gate.pass(lane.number(), batch, job.turns) {
        return Err(LaneFault::Refused);
    }
    let Some(held) = lane.enter() else {
        return Err(LaneFault::Refused);
    };
    let done = run_batch_into(
        report,
        &held,
        Batch {
            number: batch,
            port: job.settings.port,
            frames,
        },
        job.turns,
        gate,
    );
    held.leave();
    match done {
        Ok(()) => match report.copy_tally(job.alloc) {
            Ok(tally) => Ok(tally),
            Err(_) => Err(LaneFault::NoMemory),
        },
        Err(fault) => Err(forwarding(fault)),
    }
}

/// The frames of a batch, where all frames are in a list.
fn listed_frames<'f, 'a>(list: &'f [&'a [u8]], size: u32, batch: u32) -> &'f [&'a [u8]]
    requires { size ≤ batch_limit }
    ensures { result.now ≡ batch_of size batch list.now }
{
    let from = (batch as usize * size as usize).min(list.len());
    let to = (from + size as usize).min(list.len());
    &list[from..to]
}

/// Adds a batch's counts to the book. A full book is passed over: its sums are those of some batches, so a sum of all batches passes
/// 64 bits too, which is told once the lanes are back.
fn note<R: Wait>(rt: &R, book: &Mutex<StatBook>, tally: &Tally) -> Result<(), LaneFault>
    ensures { ¬ (IsErrOf result LaneFault.CountFull) }
{
    match book.lock(rt).add(tally.lane, &tally.counts) {
        Ok(()) | Err(StatFault::CountFull) => Ok(()),
        Err(StatFault::NoMemory) => Err(LaneFault::NoMemory),
        Err(StatFault::Lane) => Err(LaneFault::Refused),
    }
}
