//! The whole run.
ghost use Rattle.std.specs.Prelude.{◌≡◌, ◌≤◌, ◌<◌, ◌^◌, IfOk, IsErrOf, All, false, length, map, true};
ghost use Rattle.std.specs.List.{AllZip};
ghost use Rattle.mib_state.specs.After.{accepted};
ghost use Rattle.plan_publish.specs.Lane.{home_of};
ghost use Rattle.plan_publish.specs.Told.{told_home, told_list};
ghost use Rattle.run_settings.specs.Settings.{CanRun};
ghost use Rattle.run_lanes.specs.Control.{IsNewControl};
ghost use Rattle.run_lanes.specs.Frames.{IsCutFor, frames_in};
ghost use Rattle.run_lanes.specs.Outcome.{IsRunOf, SomeOutcomePasses};
ghost use Rattle.run_lanes.specs.Run.{IsRun, SomeRunPasses};
ghost use Rattle.run_lanes.specs.Settling.{AreNew, HasLearnt};

use crate::control_work::apply_requests;
use crate::fault::{LaneFault, opening};
use crate::frames::RunFrames;
use crate::job::Job;
use crate::settling::{Settled, settle};
use crate::threads::{lanes_work, work_at_once};
use frame_batch::Gate;
use frame_stats::{Counts, StatBook};
use omci_msg::Request;
use plan_publish::{Control, Lane, Told, open};
use run_settings::RunSettings;
use std::alloc::Global;
use std::sync::{Mutex, Wait};
use std::thread::Threads;

/// What a run gives.
#[derive(Drop)]
pub struct Ran {
    /// How many messages of the trace were accepted.
    pub accepted: u64,
    /// The number of the version by which each batch was forwarded, in order.
    pub versions: Vec<u64>,
    /// The counts of all verdicts.
    pub counts: Counts,
    /// The counts lane by lane, as the lanes noted them batch by batch.
    pub book: StatBook,
}

/// Forwards all batches while the requests are carried out and published one by one.
fn run_at_once<G: Gate + Sync, R: Threads + Wait + Sync>(
    rt: &R,
    control: &mut Control,
    lanes: Vec<Lane>,
    requests: &[Request],
    job: &Job<'_, '_>,
    gate: &G,
) -> Result<Settled, LaneFault>
    requires job { job.now.settings.after ≡ false }
    requires control { IsNewControl control.old }
    requires lanes { AreNew job.now.settings.lanes control.old.home lanes.items }
    ensures run { IfOk result (IsRunOf requests.now job.now) }
    ensures full { IsErrOf result LaneFault.CountFull
        → SomeOutcomePasses requests.now job.now }
{
    let (done, applied) = work_at_once(rt, control, lanes, requests, job, gate);
    applied?;
    let Ok(done) = done else {
        return Err(LaneFault::NoMemory);
    };
    let told = control.publish(rt);
    settle(job.alloc, done, &told, job.count)
}

/// Carries all requests out and publishes once, and then forwards all batches.
fn run_after<G: Gate + Sync, R: Threads + Wait + Sync>(
    rt: &R,
    control: &mut Control,
    lanes: Vec<Lane>,
    requests: &[Request],
    job: &Job<'_, '_>,
    gate: &G,
) -> Result<Settled, LaneFault>
    requires control { IsNewControl control.old }
    requires lanes { AreNew job.now.settings.lanes control.old.home lanes.items }
    ensures run { IfOk result (IsRunOf requests.now job.now) }
    ensures full { IsErrOf result LaneFault.CountFull
        → SomeOutcomePasses requests.now job.now }
{
    let mut lanes = lanes;
    apply_requests(rt, control, requests, job, gate)?;
    let first = control.publish(rt);
    learn_all(&mut lanes, &first);
    let Ok(done) = lanes_work(rt, lanes, job, gate) else {
        return Err(LaneFault::NoMemory);
    };
    let told = control.publish(rt);
    settle(job.alloc, done, &told, job.count)
}

/// Each lane learns the token.
fn learn_all(lanes: &mut Vec<Lane>, told: &Told)
    requires { All (λ l. told_home told.now ≡ home_of l) lanes.old.items }
    ensures { AllZip (HasLearnt (told_list told.now)) lanes.old.items lanes.new.items }
{
    for lane in lanes.iter_mut() {
        lane.learn(told);
    }
}

/// Opens a control with lanes, runs the job, and closes the control whatever came of it.
fn run_job<G: Gate + Sync, R: Threads + Wait + Sync>(
    rt: &R,
    requests: &[Request],
    job: &Job<'_, '_>,
    gate: &G,
) -> Result<Settled, LaneFault>
    ensures run { IfOk result (IsRunOf requests.now job.now) }
    ensures full { IsErrOf result LaneFault.CountFull
        → SomeOutcomePasses requests.now job.now }
{
    let (mut control, lanes) = match open(rt, job.alloc, job.settings.lanes) {
        Ok(opened) => opened,
        Err(fault) => return Err(opening(fault)),
    };
    let outcome = if job.settings.after {
        run_after(rt, &mut control, lanes, requests, job, gate)
    } else {
        run_at_once(rt, &mut control, lanes, requests, job, gate)
    };
    control.close(rt);
    outcome
}

/// What a run is given.
#[derive(Clone, Copy)]
pub struct RunInput<'f, 'a> {
    /// The requests of the trace.
    pub requests: &'f [Request],
    /// The frames of the capture.
    pub frames: &'f [&'a [u8]],
    /// How the frames are forwarded.
    pub settings: &'f RunSettings,
}

/// Forwards frames by lanes on threads of their own, in batches that are cut in order, while a control carries requests out and
/// publishes after each accepted one; or, with `after`, once all of them are carried out and published. Where no thread can be
/// made, the work is done in turn.
///
/// The gate is asked twice for each batch: before its lane enters, and once it holds its version. It is asked too, without
/// `after`, for each accepted request, once that is published, with the number of lanes as the lane and the low 32 bits of the
/// version as the batch. It may look up to `turns` times for what it waits for.
///
/// [`LaneFault::NoMemory`] where there is no memory, [`LaneFault::CountFull`] where a count passes 64 bits, and
/// [`LaneFault::Refused`] where the gate answers false, or a lane can't have, or at the end doesn't hold, what it should. A count
/// that passes is one of all verdicts, by versions that the batches may have.
pub fn run_lanes<G: Gate + Sync, R: Threads + Wait + Sync>(
    rt: &R,
    alloc: Global,
    input: &RunInput<'_, '_>,
    turns: u32,
    gate: &G,
) -> Result<Ran, LaneFault>
    requires settings { CanRun input.now.settings.now }
    requires frames { length input.now.frames.now < 2 ^ 32 }
    ensures accepted { IfOk result (λ ran. ran.accepted
        ≡ length (accepted input.now.requests.now)) }
    ensures run { IfOk result (λ ran. IsRun (accepted input.now.requests.now) input.now.settings.now
        (map (λ frame. frame.now) input.now.frames.now) ran.versions.items ran.counts) }
    ensures full { IsErrOf result LaneFault.CountFull
        → SomeRunPasses (accepted input.now.requests.now) input.now.settings.now
        (map (λ frame. frame.now) input.now.frames.now) }
{
    let source = RunSource {
        requests: input.requests,
        frames: RunFrames::Listed(input.frames),
        settings: input.settings,
    };
    run_lanes_over(rt, alloc, &source, turns, gate)
}

/// What a run is given, wherever its frames are.
#[derive(Clone, Copy)]
pub struct RunSource<'f, 'a> {
    /// The requests of the trace.
    pub requests: &'f [Request],
    /// The frames of the capture.
    pub frames: RunFrames<'f, 'a>,
    /// How the frames are forwarded.
    pub settings: &'f RunSettings,
}

/// Forwards frames by lanes as [`run_lanes`] does, wherever the frames are. Where their capture is cut into batches, a lane lists
/// the frames of a batch before it asks the gate about it, and drops the list once they are forwarded.
///
/// The faults are those of [`run_lanes`]. [`LaneFault::NoMemory`] also comes where there is no memory for such a list.
pub fn run_lanes_over<G: Gate + Sync, R: Threads + Wait + Sync>(
    rt: &R,
    alloc: Global,
    input: &RunSource<'_, '_>,
    turns: u32,
    gate: &G,
) -> Result<Ran, LaneFault>
    requires settings { CanRun input.now.settings.now }
    requires frames { length (frames_in input.now.frames) < 2 ^ 32 }
    requires size { IsCutFor input.now.settings.now.batch input.now.frames }
    ensures accepted { IfOk result (λ ran. ran.accepted
        ≡ length (accepted input.now.requests.now)) }
    ensures run { IfOk result (λ ran. IsRun (accepted input.now.requests.now) input.now.settings.now
        (frames_in input.now.frames) ran.versions.items ran.counts) }
    ensures full { IsErrOf result LaneFault.CountFull
        → SomeRunPasses (accepted input.now.requests.now) input.now.settings.now
        (frames_in input.now.frames) }
{
    let settings = input.settings;
    let Ok(book) = StatBook::new(alloc, settings.lanes) else {
        return Err(LaneFault::NoMemory);
    };
    let book = Mutex::new(book);
    let job = Job {
        alloc,
        settings: *settings,
        count: input.frames.count().div_ceil(settings.batch as usize) as u32,
        turns,
        frames: input.frames,
        book: &book,
    };
    let settled = run_job(rt, input.requests, &job, gate)?;
    Ok(Ran {
        accepted: settled.accepted,
        versions: settled.versions,
        counts: settled.counts,
        book: book.into_inner(),
    })
}
